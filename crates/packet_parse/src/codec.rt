// Reading a frame, in the paper's order of tests.
ghost use Rattle.std.specs.Prelude.{◌≡◌, ◌≤◌};
ghost use Rattle.packet_head.specs.Header.{control};
ghost use Rattle.packet_head.specs.Numbers.{MAC_LEN, MAX_LEN};
ghost use Rattle.packet_head.specs.Trailer.{mac_len_of};
ghost use Rattle.packet_parse.specs.Frame.{mac_place, mac_start_of, block_place, head_of, head_answer, rest_of, frame_of, parse_of, parsed};

use super::trailing::check;
use packet_head::{
    Address, CODE_LEN, ControlByte, HEAD_AND_CODE_LEN, HEADER_LEN, MAC_LEN, SCB_DATA_AT, SOM, Scb,
    ScsType, Trailer, trailer_len,
};
use refusal::Refusal;
use slices::word;

// What the first five bytes say.
#[derive(Clone, Copy)]
pub struct FrameHead {
    pub addr: Address,
    pub len: usize,
    pub ctrl: ControlByte,
}

// A security block: its type, and where its data stands.
#[derive(Clone, Copy)]
pub struct BlockPart {
    pub ty: ScsType,
    pub start: usize,
    pub len: usize,
}

// A frame that was read, its places as `Fields` (specs/Frame) and the theorems over it have them: numbers, each counted from the
// frame's first byte.
// `len` is not the last field, because the compiler would make one store of it and of a refusal's last number, and then keep the whole
// answer in memory.
#[derive(Clone, Copy)]
pub struct ParsedPacket {
    pub addr: Address,
    pub ctrl: ControlByte,
    pub block: Option<BlockPart>,
    pub code: u8,
    pub data_start: usize,
    pub data_len: usize,
    pub len: usize,
    pub mac: Option<usize>,
    pub trailer: Trailer,
}

// One expression, as `flag` of packet_head: a generic one is no plainer.
fn mac_len(mac: bool) -> usize
    ensures { (result ≡ mac_len_of mac) × (result ≤ MAC_LEN) }
{
    if mac { MAC_LEN } else { 0 }
}

// Where a MAC starts; where there is none 0, which malstrink_parse tells C and docs/PROMISES.md promises.
pub fn mac_start(mac: Option<usize>) -> usize
    ensures { result ≡ mac_start_of (mac_place mac) }
{
    mac.unwrap_or(0)
}

fn bad_length(n: usize) -> Refusal
    ensures { result ≡ Refusal.BadLength n n }
{
    Refusal::BadLength {
        declared: n,
        actual: n,
    }
}

// What follows the block, or the control byte where there is none. The code is at `at`.
#[tactic(auto, unfolding(crate::specs::Frame::rest_of, laws::specs::Answer::refuse_if, laws::specs::Answer::and_then))]
fn parse_rest(
    f: &[u8],
    head: FrameHead,
    block: Option<BlockPart>,
    at: usize,
    mac: bool,
) -> Result<ParsedPacket, Refusal>
    requires { at ≤ MAX_LEN }
    ensures { parsed result ≡ rest_of f.now head.addr.0 (control head.ctrl) (block_place block) at mac }
{
    let n = f.len();
    let t = trailer_len(head.ctrl.crc);
    if n < at + CODE_LEN + t {
        return Err(bad_length(n));
    }
    let m = mac_len(mac);
    if n < at + CODE_LEN + m + t {
        return Err(bad_length(n));
    }
    let trailer = check(f, head.ctrl.crc)?;
    Ok(ParsedPacket {
        addr: head.addr,
        ctrl: head.ctrl,
        block,
        code: f[at],
        data_start: at + CODE_LEN,
        data_len: n - (at + CODE_LEN + m + t),
        len: n,
        mac: mac.then_some(n - (m + t)),
        trailer,
    })
}

// The frame f, which is as long as its LEN says.
#[tactic(auto, unfolding(crate::specs::Frame::frame_of, laws::specs::Answer::refuse_if, laws::specs::Answer::choose, laws::specs::Answer::and_then))]
fn parse_frame(f: &[u8], head: FrameHead) -> Result<ParsedPacket, Refusal>
    ensures { parsed result ≡ frame_of f.now head.addr.0 (control head.ctrl) }
{
    let t = trailer_len(head.ctrl.crc);
    if f.len() < HEAD_AND_CODE_LEN + t {
        return Err(bad_length(f.len()));
    }
    if !head.ctrl.block {
        return parse_rest(f, head, None, HEADER_LEN, false);
    }
    let b = Scb::parse(&f[HEADER_LEN..])?;
    let len = usize::from(b.data_len);
    let block = BlockPart {
        ty: b.ty,
        start: SCB_DATA_AT,
        len,
    };
    parse_rest(f, head, Some(block), SCB_DATA_AT + len, b.ty.has_mac())
}

// The first five bytes: whose frame, how long, and its control byte. LEN is told as it stands there, 0 to 65,535: a driver tests it
// before it takes five away, and against its room (docs/RULES.md, 3.7).
#[tactic(auto, unfolding(crate::specs::Frame::head_of, laws::specs::Answer::refuse_if, laws::specs::Answer::and_then))]
pub fn head(buf: &[u8]) -> Result<FrameHead, Refusal>
    ensures { head_answer result ≡ head_of buf.now }
{
    if buf.len() < HEADER_LEN {
        return Err(Refusal::Truncated {
            have: buf.len(),
            need: HEADER_LEN,
        });
    }
    if buf[0] != SOM {
        return Err(Refusal::BadSom(buf[0]));
    }
    let ctrl = ControlByte::decode(buf[4])?;
    Ok(FrameHead {
        addr: Address::from_raw(buf[1]),
        len: word(buf[2], buf[3]).into(),
        ctrl,
    })
}

// The frame at the start of buf.
#[tactic(auto, unfolding(crate::specs::Frame::parse_of, laws::specs::Answer::refuse_if, laws::specs::Answer::and_then))]
pub fn parse(buf: &[u8]) -> Result<ParsedPacket, Refusal>
    ensures { parsed result ≡ parse_of buf.now }
{
    let head = head(buf)?;
    if buf.len() < head.len {
        return Err(Refusal::Truncated {
            have: buf.len(),
            need: head.len,
        });
    }
    parse_frame(&buf[..head.len], head)
}
