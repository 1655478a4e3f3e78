// Addresses, sequence numbers, the control byte and the block's type.
ghost use Rattle.std.specs.Prelude.{◌≡◌};
ghost use Rattle.laws.specs.Answer.{and_then};
ghost use Rattle.packet_head.specs.Header.{pd_of, reply_of, sqn_of, next_of, control_of, encode_of};
ghost use Rattle.packet_head.specs.Block.{scs_of};
ghost use Rattle.crossing.specs.Answers.{c_answer, c_control};

use crossing::{CAnswer, CControl};
use packet_head::{Address, ControlByte, ScsType, Sqn};

pub fn malstrink_address_pd(addr: u8) -> CAnswer
    ensures { result ≡ c_answer (pd_of addr) }
{
    Address::pd(addr).into()
}

pub fn malstrink_address_reply(addr: u8) -> CAnswer
    ensures { result ≡ c_answer (reply_of addr) }
{
    Address::reply(addr).into()
}

pub fn malstrink_sqn_new(n: u8) -> CAnswer
    ensures { result ≡ c_answer (sqn_of n) }
{
    Sqn::new(n).into()
}

#[tactic(auto, unfolding(laws::specs::Answer::and_then))]
pub fn malstrink_sqn_next(n: u8) -> CAnswer
    ensures { result ≡ c_answer (and_then (sqn_of n) next_of) }
{
    match Sqn::new(n) {
        Ok(s) => s.next().into(),
        Err(e) => e.into(),
    }
}

pub fn malstrink_control_decode(byte: u8) -> CControl
    ensures { result ≡ c_control (control_of byte) }
{
    ControlByte::decode(byte).into()
}

#[tactic(auto, unfolding(laws::specs::Answer::and_then))]
pub fn malstrink_control_encode(sqn: u8, crc: bool, block: bool) -> CAnswer
    ensures { result ≡ c_answer (and_then (sqn_of sqn) (λ n. encode_of (record { sqn = n; crc = crc; block = block }))) }
{
    match Sqn::new(sqn) {
        Ok(s) => ControlByte::new(s, crc, block).encode().into(),
        Err(e) => e.into(),
    }
}

pub fn malstrink_scs_type(byte: u8) -> CAnswer
    ensures { result ≡ c_answer (scs_of byte) }
{
    ScsType::from_byte(byte).into()
}
