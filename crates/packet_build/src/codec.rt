// A packet that is asked for, and its frame, built into a buffer that the caller lends.
ghost use Rattle.std.specs.Prelude.{◌≡◌, ◌≤◌, length};
ghost use Rattle.laws.specs.Buffer.{sized, written};
ghost use Rattle.refusal.specs.Reading.{length_answer};
ghost use Rattle.packet_head.specs.Numbers.{MAC_LEN};
ghost use Rattle.packet_build.specs.Build.{mac_bytes, parts_given, build_of, body_of};

use super::put::{put_body, put_mac, put_tail};
use super::test::test_parts;
use packet_head::{Address, ControlByte, MAC_LEN, ScsType};
use refusal::Refusal;

// The four bytes of a MAC, where one is given.
pub type GivenMac = Option<[u8; MAC_LEN]>;

// How many bytes they are.
fn mac_size(mac: GivenMac) -> usize
    ensures { (result ≡ length (mac_bytes mac)) × (result ≤ MAC_LEN) }
{
    match mac {
        None => 0,
        Some(_) => MAC_LEN,
    }
}

// The packet that is asked for; the data of its security block, where it has one, and its own data are lent beside it, as C hands them in
// (malstrink_build) and as the theorem FromView.view-builds gives them.
#[derive(Clone, Copy)]
pub struct PacketBuilder {
    pub addr: Address,
    pub ctrl: ControlByte,
    pub block: Option<ScsType>,
    pub code: u8,
}

impl PacketBuilder {
    // A packet with neither block nor MAC.
    pub fn plain(addr: Address, ctrl: ControlByte, code: u8) -> Self
        ensures { (result.addr ≡ addr) × (result.ctrl ≡ ctrl) × (result.block ≡ None) × (result.code ≡ code) }
    {
        Self {
            addr,
            ctrl,
            block: None,
            code,
        }
    }
}

// Writes the frame into out, or refuses and leaves out as it is. Where w has no block, the bytes in block are not looked at.
pub fn build(
    w: PacketBuilder,
    block: &[u8],
    data: &[u8],
    mac: GivenMac,
    out: &mut [u8],
) -> Result<usize, Refusal>
    ensures result_value { length_answer result ≡ sized (build_of (parts_given w block.now «data».now mac) (length out.old)) }
    ensures out_after { out.new ≡ written out.old (build_of (parts_given w block.now «data».now mac) (length out.old)) }
{
    let tested = test_parts(w, block, data, mac_size(mac), out.len())?;
    let n = put_body(out, w, tested, block, data);
    let m = put_mac(out, n, mac);
    Ok(put_tail(out, m, w.ctrl.crc))
}

// The first of two calls, for a packet whose MAC is not known yet: it writes what the MAC is worked out over, from 53 to the
// end of data, where the whole frame would have room. The second is build, given the MAC.
pub fn build_body(
    w: PacketBuilder,
    block: &[u8],
    data: &[u8],
    out: &mut [u8],
) -> Result<usize, Refusal>
    ensures result_value { length_answer result ≡ sized (body_of (parts_given w block.now «data».now None) (length out.old)) }
    ensures out_after { out.new ≡ written out.old (body_of (parts_given w block.now «data».now None) (length out.old)) }
{
    let tested = test_parts(w, block, data, MAC_LEN, out.len())?;
    Ok(put_body(out, w, tested, block, data))
}
