// Building a frame. Each call is a match on what is asked, for the reason that session.rt has.
ghost use Rattle.std.specs.Prelude.{◌≡◌, length};
ghost use Rattle.laws.specs.Buffer.{sized, written};
ghost use Rattle.crossing.specs.Answers.{c_answer};
ghost use Rattle.crossing.specs.Building.{mac_arg};
ghost use Rattle.ffi.specs.Building.{build_arg, body_arg};

use crossing::{CAnswer, CMac, CPacket};
use packet_build::PacketBuilder;

// The frame into out; the answer is how many bytes it has.
pub fn malstrink_build(p: CPacket, block: &[u8], data: &[u8], mac: CMac, out: &mut [u8]) -> CAnswer
    ensures value { result ≡ c_answer (sized (build_arg p block.now «data».now (mac_arg mac) (length out.old))) }
    ensures out_after { out.new ≡ written out.old (build_arg p block.now «data».now (mac_arg mac) (length out.old)) }
{
    match PacketBuilder::try_from(p) {
        Ok(w) => packet_build::build(w, block, data, mac.into(), out).into(),
        Err(e) => e.into(),
    }
}

// What a MAC is worked out over, from 53 to the end of data, into out.
pub fn malstrink_build_body(p: CPacket, block: &[u8], data: &[u8], out: &mut [u8]) -> CAnswer
    ensures value { result ≡ c_answer (sized (body_arg p block.now «data».now (length out.old))) }
    ensures out_after { out.new ≡ written out.old (body_arg p block.now «data».now (length out.old)) }
{
    match PacketBuilder::try_from(p) {
        Ok(w) => packet_build::build_body(w, block, data, out).into(),
        Err(e) => e.into(),
    }
}
