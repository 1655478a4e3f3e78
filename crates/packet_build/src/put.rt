// The parts of a frame, each copied to its place. Buffer and place go from call to call as they are: a type that held both would have
// each promise speak of it and of them.
ghost use Rattle.std.specs.Prelude.{◌≡◌, ◌+◌, ◌≤◌, length, take};
ghost use Rattle.laws.specs.Over.{write};
ghost use Rattle.packet_head.specs.Numbers.{HEADER_LEN, MAX_SCB_DATA, CODE_LEN, MAX_LEN};
ghost use Rattle.packet_head.specs.Header.{control, ctrl_byte};
ghost use Rattle.packet_head.specs.Trailer.{trailer_len};
ghost use Rattle.packet_build.specs.Build.{scb_given, block_n, block_bytes, body_bytes, mac_bytes, tail_bytes};

use super::codec::{GivenMac, PacketBuilder};
use super::test::Tested;
use packet_head::{
    CHECKSUM_LEN, CODE_LEN, CRC_LEN, HEADER_LEN, MAC_LEN, SCB_DATA_AT, SCB_HEADER_LEN, SOM, ScsType,
};

// The block behind the head, if there is one; the place after it.
fn put_block(out: &mut [u8], block: Option<ScsType>, bytes: &[u8]) -> usize
    requires { (block_n (scb_given block bytes.now) ≤ MAX_SCB_DATA) × (HEADER_LEN + length (block_bytes (scb_given block bytes.now)) ≤ length out.old) }
    ensures value { result ≡ HEADER_LEN + length (block_bytes (scb_given block bytes.now)) }
    ensures out_after { out.new ≡ write out.old HEADER_LEN (block_bytes (scb_given block bytes.now)) }
{
    match block {
        None => HEADER_LEN,
        Some(ty) => {
            let head = [(bytes.len() + SCB_HEADER_LEN) as u8, ty.as_byte()];
            slices::copy(out, HEADER_LEN, &head);
            slices::copy(out, SCB_DATA_AT, bytes);
            SCB_DATA_AT + bytes.len()
        }
    }
}

// From 53 to the end of data; the place after it.
pub(crate) fn put_body(
    out: &mut [u8],
    w: PacketBuilder,
    tested: Tested,
    bytes: &[u8],
    data: &[u8],
) -> usize
    requires { (tested.ctrl ≡ ctrl_byte (control w.ctrl)) × (block_n (scb_given w.block bytes.now) ≤ MAX_SCB_DATA) × (tested.total ≤ MAX_LEN) × (HEADER_LEN + CODE_LEN + length (block_bytes (scb_given w.block bytes.now)) + length «data».now ≤ length out.old) }
    ensures value { result ≡ HEADER_LEN + CODE_LEN + length (block_bytes (scb_given w.block bytes.now)) + length «data».now }
    ensures out_after { out.new ≡ write out.old 0 (body_bytes w.addr.0 (control w.ctrl) (scb_given w.block bytes.now) w.code «data».now tested.total) }
{
    let len = slices::bytes_of_u16(tested.total as u16);
    let head = [SOM, w.addr.as_byte(), len[0], len[1], tested.ctrl];
    slices::copy(out, 0, &head);
    let at = put_block(out, w.block, bytes);
    out[at] = w.code;
    // to a part of just its length, so that the test of the room costs nothing
    let end = at + CODE_LEN + data.len();
    slices::copy(&mut out[at + CODE_LEN..end], 0, data);
    end
}

// The MAC, if there is one; the place after it.
pub(crate) fn put_mac(out: &mut [u8], at: usize, mac: GivenMac) -> usize
    requires { at + length (mac_bytes mac) ≤ length out.old }
    ensures value { result ≡ at + length (mac_bytes mac) }
    ensures out_after { out.new ≡ write out.old at (mac_bytes mac) }
{
    match mac {
        None => at,
        Some(four) => {
            slices::copy(out, at, &four);
            at + MAC_LEN
        }
    }
}

// The trailer of what stands before at; the place after it. `crc` is the control byte's bit: an if is plainest.
pub(crate) fn put_tail(out: &mut [u8], at: usize, crc: bool) -> usize
    requires { at + trailer_len crc ≤ length out.old }
    ensures value { result ≡ at + trailer_len crc }
    ensures out_after { out.new ≡ write out.old at (tail_bytes crc (take at out.old)) }
{
    if crc {
        let two = packet_sums::crc16_le(&out[..at]);
        out[at..at + CRC_LEN].copy_from_slice(&two);
        at + CRC_LEN
    } else {
        out[at] = packet_sums::checksum8(&out[..at]);
        at + CHECKSUM_LEN
    }
}
