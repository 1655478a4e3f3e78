// Whether what is asked can be built.
ghost use Rattle.std.specs.Prelude.{◌≡◌, cond, ◌≤◌, ◌<◌, ◌^◌};
ghost use Rattle.packet_head.specs.Numbers.{MAC_LEN};
ghost use Rattle.packet_head.specs.Header.{control};
ghost use Rattle.packet_build.specs.Build.{parts_given, test_of, sizes_of};
ghost use Rattle.packet_build.specs.Tested.{sizes, tested, with_ctrl};

use super::codec::PacketBuilder;
use packet_head::{
    ControlByte, HEAD_AND_CODE_LEN, MAC_LEN, MAX_LEN, MAX_SCB_DATA, SCB_HEADER_LEN, trailer_len,
};
use refusal::Refusal;

// How long the frame is, and its control byte.
#[derive(Clone, Copy)]
pub(crate) struct Tested {
    pub(crate) total: usize,
    pub(crate) ctrl: u8,
}

// n where on holds, else 0: one expression, as `flag` of packet_head, and a generic one is no plainer.
fn if_on(on: bool, n: usize) -> usize
    ensures { (result ≡ cond on n 0) × (result ≤ n) }
{
    if on { n } else { 0 }
}

// Whether there is a block and whether a MAC is due; how many bytes of MAC, of the block's data, of data, and of room in the buffer.
// The flag and the length stand apart, as `sizes` (specs/Tested) has them.
#[derive(Clone, Copy)]
struct Sizes {
    has_block: bool,
    mac_due: bool,
    mac: usize,
    block_data: usize,
    data: usize,
    room: usize,
}

// The tests in the paper's order.
fn test(ctrl: ControlByte, z: Sizes) -> Result<Tested, Refusal>
    requires { (z.block_data < 2 ^ 63) × (z.«data» < 2 ^ 63) × (z.mac ≤ MAC_LEN) }
    ensures { tested result ≡ with_ctrl (control ctrl) (test_of (control ctrl) (sizes z)) }
{
    let byte = ctrl.encode()?;
    if z.has_block != ctrl.block {
        return Err(Refusal::BadControlByte(byte));
    }
    if z.mac != if_on(z.mac_due, MAC_LEN) {
        return Err(Refusal::BadMac);
    }
    if MAX_SCB_DATA < z.block_data {
        return Err(Refusal::BlockTooLong(z.block_data));
    }
    let total = HEAD_AND_CODE_LEN
        + if_on(z.has_block, SCB_HEADER_LEN)
        + z.block_data
        + z.data
        + z.mac
        + trailer_len(ctrl.crc);
    let have = z.room;
    // secure_seal tests its own total so: an if each, and one function of both, handed total and room, is no plainer
    if MAX_LEN < total {
        return Err(Refusal::BufferOverflow {
            need: total,
            have: MAX_LEN,
        });
    }
    if have < total {
        return Err(Refusal::NoRoom { need: total, have });
    }
    Ok(Tested { total, ctrl: byte })
}

// The same of what a caller hands over, with mac bytes of MAC.
pub(crate) fn test_parts(
    w: PacketBuilder,
    block: &[u8],
    data: &[u8],
    mac: usize,
    have: usize,
) -> Result<Tested, Refusal>
    requires { mac ≤ MAC_LEN }
    ensures { tested result ≡ with_ctrl (control w.ctrl) (test_of (control w.ctrl) (sizes_of (parts_given w block.now «data».now None) mac have)) }
{
    let (has_block, mac_due, block_data) = match w.block {
        None => (false, false, 0),
        Some(ty) => (true, ty.has_mac(), block.len()),
    };
    test(
        w.ctrl,
        Sizes {
            has_block,
            mac_due,
            mac,
            block_data,
            data: data.len(),
            room: have,
        },
    )
}
