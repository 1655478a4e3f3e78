// A frame that was read, its first five bytes, and a block alone.
ghost use Rattle.std.specs.Prelude.{◌≡◌};
ghost use Rattle.packet_head.specs.Block.{scb_answer};
ghost use Rattle.packet_head.specs.Trailer.{tail};
ghost use Rattle.packet_parse.specs.Frame.{type_in, block_start_in, block_len_in, head_answer, parsed, block_place};
ghost use Rattle.crossing.specs.Parsing.{c_block, c_head, c_parsed, c_nothing, tail_value};

use super::answer::{CAnswer, given};
use packet_head::{Scb, Trailer};
use packet_parse::{BlockPart, FrameHead, ParsedPacket, mac_start};
use refusal::Refusal;

#[repr(C)]
#[derive(Clone, Copy)]
pub struct CBlock {
    pub answer: CAnswer,
    pub ty: u8,
    pub data_len: u8,
}

#[repr(C)]
#[derive(Clone, Copy)]
pub struct CHead {
    pub answer: CAnswer,
    pub addr: u8,
    pub len: usize,
    pub sqn: u8,
    pub crc: bool,
    pub block: bool,
}

// Each place is counted from the frame's first byte. No block has type 0, no MAC place 0.
#[repr(C)]
#[derive(Clone, Copy)]
pub struct CParsed {
    pub answer: CAnswer,
    pub addr: u8,
    pub sqn: u8,
    pub crc: bool,
    pub block: bool,
    pub block_type: u8,
    pub block_start: usize,
    pub block_len: usize,
    pub code: u8,
    pub data_start: usize,
    pub data_len: usize,
    pub mac_start: usize,
    pub trailer_is_crc: bool,
    pub trailer: u16,
    pub len: usize,
}

impl From<Result<Scb, Refusal>> for CBlock {
    ghost from_gives = { λ r c. c ≡ c_block (scb_answer r) };

    fn from(r: Result<Scb, Refusal>) -> CBlock {
        match r {
            Ok(b) => CBlock {
                answer: given(0),
                ty: b.ty.as_byte(),
                data_len: b.data_len,
            },
            Err(e) => CBlock {
                answer: e.into(),
                ty: 0,
                data_len: 0,
            },
        }
    }
}

impl From<Result<FrameHead, Refusal>> for CHead {
    ghost from_gives = { λ r c. c ≡ c_head (head_answer r) };

    fn from(r: Result<FrameHead, Refusal>) -> CHead {
        match r {
            Ok(h) => CHead {
                answer: given(0),
                addr: h.addr.as_byte(),
                len: h.len,
                sqn: h.ctrl.sqn.value(),
                crc: h.ctrl.crc,
                block: h.ctrl.block,
            },
            Err(e) => CHead {
                answer: e.into(),
                addr: 0,
                len: 0,
                sqn: 0,
                crc: false,
                block: false,
            },
        }
    }
}

// A block's type, and where its data starts and how long it is; all 0 where there is none.
fn block_told(b: Option<BlockPart>) -> (u8, usize, usize)
    ensures { result ≡ (type_in (block_place b), block_start_in (block_place b), block_len_in (block_place b)) }
{
    b.map_or((0, 0, 0), |b| (b.ty.as_byte(), b.start, b.len))
}

// C's number; trailer_is_crc stands beside it. From<Trailer> for u16 could be packet_head's alone, where nothing wants it.
fn trailer_value(t: Trailer) -> u16
    ensures { result ≡ tail_value (tail t) }
{
    match t {
        Trailer::Checksum(n) => n.into(),
        Trailer::Crc(n) => n,
    }
}

fn nothing_parsed(answer: CAnswer) -> CParsed
    ensures { result ≡ c_nothing answer }
{
    CParsed {
        answer,
        addr: 0,
        sqn: 0,
        crc: false,
        block: false,
        block_type: 0,
        block_start: 0,
        block_len: 0,
        code: 0,
        data_start: 0,
        data_len: 0,
        mac_start: 0,
        trailer_is_crc: false,
        trailer: 0,
        len: 0,
    }
}

impl From<Result<ParsedPacket, Refusal>> for CParsed {
    ghost from_gives = { λ r c. c ≡ c_parsed (parsed r) };

    fn from(r: Result<ParsedPacket, Refusal>) -> CParsed {
        let p = match r {
            Ok(p) => p,
            Err(e) => return nothing_parsed(e.into()),
        };
        let (block_type, block_start, block_len) = block_told(p.block);
        CParsed {
            answer: given(0),
            addr: p.addr.as_byte(),
            sqn: p.ctrl.sqn.value(),
            crc: p.ctrl.crc,
            block: p.ctrl.block,
            block_type,
            block_start,
            block_len,
            code: p.code,
            data_start: p.data_start,
            data_len: p.data_len,
            mac_start: mac_start(p.mac),
            trailer_is_crc: p.trailer.is_crc(),
            trailer: trailer_value(p.trailer),
            len: p.len,
        }
    }
}
