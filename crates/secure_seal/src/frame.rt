// A frame with its MAC, and its data encrypted where asked.
ghost use Rattle.std.specs.Prelude.{◌≡◌, ◌+◌, ◌≤◌, true, [], length, take};
ghost use Rattle.laws.specs.Over.{write};
ghost use Rattle.packet_build.specs.Build.{FrameBlock.scb, body_bytes, tail_bytes};
ghost use Rattle.packet_head.specs.Numbers.{MAX_SQN, MAC_LEN, MAX_LEN};
ghost use Rattle.packet_head.specs.Block.{type_of};
ghost use Rattle.refusal.specs.Reading.{length_answer};
ghost use Rattle.secure_session.specs.Chain.{send_from};
ghost use Rattle.secure_seal.specs.Seal.{type_for, data_len_for, data_of, asked_of, before_data, after_data, sealed_control, frame_test, seal_of, seal_told};
ghost use Rattle.secure_seal.specs.Parts.{Put, refused_with};

use packet_head::{
    Address, CODE_LEN, CRC_LEN, ControlByte, MAC_LEN, MAX_LEN, MAX_SQN, SCB_DATA_AT,
    SCB_HEADER_LEN, SOM, ScsType, Sqn,
};
use refusal::Refusal;
use secure_session::{Processed, SecureSession, Session};

// Who sends, as the caller names it.
#[derive(Clone, Copy)]
pub enum Direction {
    AcuToPd,
    PdToAcu,
}

impl Direction {
    #[tactic(auto, unfolding(crate::specs::Seal::type_for))]
    pub fn scs_for(self, encrypt: bool) -> ScsType
        ensures { type_of result ≡ type_for self encrypt }
    {
        match (self, encrypt) {
            (Direction::AcuToPd, false) => ScsType::Scs15,
            (Direction::PdToAcu, false) => ScsType::Scs16,
            (Direction::AcuToPd, true) => ScsType::Scs17,
            (Direction::PdToAcu, true) => ScsType::Scs18,
        }
    }
}

// What is to be sealed, the payload apart.
#[derive(Clone, Copy)]
pub struct ToSeal {
    pub addr: Address,
    pub sqn: Sqn,
    pub direction: Direction,
    pub encrypt: bool,
    pub code: u8,
}

// How long the frame is; how often the cipher was called; the session after it.
pub type Sealed = Processed<usize>;

// What stands before the data, the block's two bytes and the code behind the head; and behind it, MAC and CRC.
const BEFORE_DATA: usize = SCB_DATA_AT + CODE_LEN;

const AFTER_DATA: usize = MAC_LEN + CRC_LEN;

const AROUND_DATA: usize = BEFORE_DATA + AFTER_DATA;

// The same, with the last block, which holds padding.
const AROUND_BLOCKS: usize = AROUND_DATA + 16;

// The length byte of a block without data.
const EMPTY_BLOCK: u8 = SCB_HEADER_LEN as u8;

// A CRC and a block, always.
const FLAGS: u8 = ControlByte::USE_CRC + ControlByte::HAS_SCB;

// How long the frame is.
fn total_len(encrypt: bool, data: &[u8]) -> usize
    ensures { result ≡ before_data + after_data + data_len_for encrypt «data».now }
{
    if encrypt {
        data.len() / 16 * 16 + AROUND_BLOCKS
    } else {
        data.len() + AROUND_DATA
    }
}

// The tests of a frame of total bytes, in the order of `frame_test`, for a buffer of `have`. What packet_build tests stands in other orders.
#[tactic(auto, unfolding(crate::specs::Seal::frame_test, laws::specs::Answer::refuse_if))]
fn test(sqn: Sqn, total: usize, have: usize) -> Result<usize, Refusal>
    ensures { length_answer result ≡ frame_test sqn.0 total have }
{
    let n = sqn.value();
    if MAX_SQN < n {
        return Err(Refusal::BadSqn(n));
    }
    if MAX_LEN < total {
        return Err(Refusal::BufferOverflow {
            need: total,
            have: MAX_LEN,
        });
    }
    if have < total {
        return Err(Refusal::NoRoom { need: total, have });
    }
    Ok(total)
}

// The eight bytes before the data, in a frame of total bytes: the block has no data of its own, and the trailer is a CRC.
fn put_head(w: ToSeal, total: usize, out: &mut [u8])
    requires { (w.sqn.0 ≤ MAX_SQN) × (total ≤ MAX_LEN) × (before_data ≤ length out.old) }
    ensures { out.new ≡ write out.old 0 (body_bytes w.addr.0 (sealed_control w.sqn.0) (scb (type_for w.direction w.encrypt) []) w.code [] total) }
{
    let len = slices::bytes_of_u16(total as u16);
    let head = [
        SOM,
        w.addr.as_byte(),
        len[0],
        len[1],
        w.sqn.value() + FLAGS,
        EMPTY_BLOCK,
        w.direction.scs_for(w.encrypt).as_byte(),
        w.code,
    ];
    slices::copy(out, 0, &head);
}

// The data over the whole of out; how often the cipher was called for it.
fn put_data(secure: SecureSession, encrypt: bool, data: &[u8], out: &mut [u8]) -> usize
    requires { length out.old ≡ data_len_for encrypt «data».now }
    ensures { (out.new ≡ (data_of encrypt secure.session.keys.s_enc (send_from secure.session) «data».now).bytes) × (result ≡ (data_of encrypt secure.session.keys.s_enc (send_from secure.session) «data».now).steps) }
{
    if encrypt {
        secure.session.seal_data(data, out).calls
    } else {
        slices::copy(out, 0, data);
        0
    }
}

// Behind the body, which is out up to end: the first four bytes of the MAC, and the CRC.
fn put_end(full: [u8; 16], end: usize, out: &mut [u8])
    requires { end + after_data ≤ length out.old }
    ensures { out.new ≡ write (write out.old end (take MAC_LEN full)) (end + MAC_LEN) (tail_bytes true (take (end + MAC_LEN) (write out.old end (take MAC_LEN full)))) }
{
    let mac = [full[0], full[1], full[2], full[3]];
    let crc_at = end + MAC_LEN;
    slices::copy(&mut out[end..crc_at], 0, &mac);
    let crc = packet_sums::crc16_le(&out[..crc_at]);
    out[crc_at..crc_at + CRC_LEN].copy_from_slice(&crc);
}

// The frame of total bytes at the front of out; how often the cipher was called for all of it, and the session with its chain moved by
// the frame's MAC.
fn put_frame(secure: SecureSession, total: usize, w: ToSeal, data: &[u8], out: &mut [u8]) -> Sealed
    requires { (w.sqn.0 ≤ MAX_SQN) × (total ≡ before_data + after_data + data_len_for w.encrypt «data».now) × (total ≤ MAX_LEN) × (total ≤ length out.old) }
    ensures { Put secure.session (asked_of w «data».now) out.old out.new result }
{
    let end = total - AFTER_DATA;
    put_head(w, total, out);
    let hidden = put_data(secure, w.encrypt, data, &mut out[BEFORE_DATA..end]);
    let made = secure.session.mac(&out[..end]);
    // never refused: the session is Secure by its type
    let Ok(full) = made.answer else {
        return refused(made.session, Refusal::WrongState);
    };
    put_end(full, end, out);
    Sealed {
        answer: Ok(total),
        calls: hidden + secure_cipher::mac_calls(end),
        session: made.session,
    }
}

// A refusal leaves the session as it was and calls no cipher. One expression, as in crossing and secure_unseal, each by its definition.
fn refused(session: Session, e: Refusal) -> Sealed
    ensures { result ≡ refused_with session e }
{
    Sealed {
        answer: Err(e),
        calls: 0,
        session,
    }
}

// Seals data into out, and hands the session back with its chain moved by the frame's MAC.
pub fn seal(session: Session, w: ToSeal, data: &[u8], out: &mut [u8]) -> Sealed
    ensures { seal_told result out.new ≡ seal_of session (asked_of w «data».now) out.old }
{
    let Some(secure) = session.secure() else {
        return refused(session, Refusal::WrongState);
    };
    match test(w.sqn, total_len(w.encrypt, data), out.len()) {
        Ok(total) => put_frame(secure, total, w, data, out),
        Err(e) => refused(session, e),
    }
}
