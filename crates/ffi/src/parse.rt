// Reading a frame, its first five bytes, and a block alone.
ghost use Rattle.std.specs.Prelude.{◌≡◌};
ghost use Rattle.packet_head.specs.Block.{scb_of};
ghost use Rattle.packet_parse.specs.Frame.{head_of, parse_of};
ghost use Rattle.crossing.specs.Parsing.{c_block, c_head, c_parsed};

use crossing::{CBlock, CHead, CParsed};
use packet_head::Scb;
use packet_parse::{head, parse};

// The block at the start of a frame's part from byte 5 on.
pub fn malstrink_block(bytes: &[u8]) -> CBlock
    ensures { result ≡ c_block (scb_of bytes.now) }
{
    Scb::parse(bytes).into()
}

pub fn malstrink_head(bytes: &[u8]) -> CHead
    ensures { result ≡ c_head (head_of bytes.now) }
{
    head(bytes).into()
}

pub fn malstrink_parse(bytes: &[u8]) -> CParsed
    ensures { result ≡ c_parsed (parse_of bytes.now) }
{
    parse(bytes).into()
}
