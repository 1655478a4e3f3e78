// The calls that are lent a buffer: what it holds before the call, by the oracle's rule, and what it and 16 bytes beyond hold after it.
ghost use Rattle.std.specs.Prelude.{◌≡◌, length};

use super::Case;
use super::wanted::{Answer, Wanted};
use crossing::{Bytes16, CAnswer, CMac, CPacket, CSession};

fn filled() -> [u8; 1024]
    ensures { 1024 ≡ length result }
{
    let mut x: u8 = 0;
    let mut bytes = [0; 1024];
    for byte in &mut bytes {
        *byte = x ^ 0xA5;
        x = x.wrapping_add(7);
    }
    bytes
}

// Whether all of the answer is the one wanted: the buffer comes last.
fn lend<A: Answer, F: FnOnce(&mut [u8]) -> A>(room: usize, wanted: Wanted, call: F) -> bool
    requires { F.IsAlwaysCallable call }
{
    if 1000 < room {
        return false;
    }
    let mut bytes = filled();
    let answer = call(&mut bytes[..room]);
    wanted
        .then(answer)
        .is_some_and(|left| left.is(&bytes[..room + 16]))
}

// Fields, MAC, the lengths of block and data, the room; then block and data.
fn build<F: FnOnce(CPacket, &[u8], &[u8], CMac, &mut [u8]) -> CAnswer>(case: Case, call: F) -> bool
    requires { F.IsAlwaysCallable call }
{
    let Case { mut given, wanted } = case;
    let packet = given.next();
    let mac = given.next();
    let block_len = given.len();
    let data_len = given.len();
    let room = given.len();
    let block = given.part(block_len);
    let data = given.part(data_len);
    lend(room, wanted, |out| call(packet, block, data, mac, out))
}

// Room, key, start value, bytes. Padding looks at the bytes only.
fn cipher<A: Answer, F: FnOnce(Bytes16, Bytes16, &[u8], &mut [u8]) -> A>(
    case: Case,
    call: F,
) -> bool
    requires { F.IsAlwaysCallable call }
{
    let Case { mut given, wanted } = case;
    let room = given.len();
    let key = given.next();
    let iv = given.next();
    lend(room, wanted, |out| call(key, iv, given.rest(), out))
}

// The session, the buffer's room, bytes.
fn on_session<A: Answer, F: FnOnce(CSession, &[u8], &mut [u8]) -> A>(case: Case, call: F) -> bool
    requires { F.IsAlwaysCallable call }
{
    let Case { mut given, wanted } = case;
    let session = given.next();
    let room = given.len();
    lend(room, wanted, |out| call(session, given.rest(), out))
}

// The session, the buffer's room, what is to be sealed, its data.
fn seal(case: Case) -> bool {
    let Case { mut given, wanted } = case;
    let session = given.next();
    let room = given.len();
    let asked = given.next();
    lend(room, wanted, |out| {
        ffi::malstrink_seal(session, asked, given.rest(), out)
    })
}

// Closures and not the calls' names, which were tried: the name of another crate's function gets no proof.
// Why the numbers stand, main.rt says.
pub(crate) fn agrees(op: u8, case: Case) -> bool {
    match op {
        12 => build(case, |packet, block, data, mac, out| {
            ffi::malstrink_build(packet, block, data, mac, out)
        }),
        0..=13 => build(case, |packet, block, data, _, out| {
            ffi::malstrink_build_body(packet, block, data, out)
        }),
        22 => cipher(case, |_, _, data, out| ffi::malstrink_pad_mac(data, out)),
        14..=23 => cipher(case, |_, _, data, out| ffi::malstrink_pad_data(data, out)),
        26 => cipher(case, |key, iv, data, out| {
            ffi::malstrink_encrypt_data(key, iv, data, out)
        }),
        24..=27 => cipher(case, |key, iv, data, out| {
            ffi::malstrink_decrypt_data(key, iv, data, out)
        }),
        42 => on_session(case, |session, data, out| {
            ffi::malstrink_session_seal_data(session, data, out)
        }),
        28..=43 => on_session(case, |session, data, out| {
            ffi::malstrink_session_open_data(session, data, out)
        }),
        44 => seal(case),
        _ => on_session(case, |session, frame, work| {
            ffi::malstrink_unseal(session, frame, work)
        }),
    }
}
