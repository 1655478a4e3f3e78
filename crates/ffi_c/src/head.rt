// Addresses, sequence numbers, the control byte and the block's type.
ghost use Rattle.std.specs.Prelude.{◌≡◌};
ghost use Rattle.laws.specs.Answer.{and_then};
ghost use Rattle.packet_head.specs.Header.{pd_of, reply_of, sqn_of, next_of, control_of, encode_of};
ghost use Rattle.packet_head.specs.Block.{scs_of};
ghost use Rattle.crossing.specs.Answers.{c_answer, c_control};

use crossing::{CAnswer, CControl};

#[unsafe(no_mangle)]
pub extern "C" fn malstrink_address_pd(addr: u8) -> CAnswer
    ensures { result ≡ c_answer (pd_of addr) }
{
    ffi::malstrink_address_pd(addr)
}

#[unsafe(no_mangle)]
pub extern "C" fn malstrink_address_reply(addr: u8) -> CAnswer
    ensures { result ≡ c_answer (reply_of addr) }
{
    ffi::malstrink_address_reply(addr)
}

#[unsafe(no_mangle)]
pub extern "C" fn malstrink_sqn_new(n: u8) -> CAnswer
    ensures { result ≡ c_answer (sqn_of n) }
{
    ffi::malstrink_sqn_new(n)
}

#[unsafe(no_mangle)]
pub extern "C" fn malstrink_sqn_next(n: u8) -> CAnswer
    ensures { result ≡ c_answer (and_then (sqn_of n) next_of) }
{
    ffi::malstrink_sqn_next(n)
}

#[unsafe(no_mangle)]
pub extern "C" fn malstrink_control_decode(byte: u8) -> CControl
    ensures { result ≡ c_control (control_of byte) }
{
    ffi::malstrink_control_decode(byte)
}

#[unsafe(no_mangle)]
pub extern "C" fn malstrink_control_encode(sqn: u8, crc: bool, block: bool) -> CAnswer
    ensures { result ≡ c_answer (and_then (sqn_of sqn) (λ n. encode_of (record { sqn = n; crc = crc; block = block }))) }
{
    ffi::malstrink_control_encode(sqn, crc, block)
}

#[unsafe(no_mangle)]
pub extern "C" fn malstrink_scs_type(byte: u8) -> CAnswer
    ensures { result ≡ c_answer (scs_of byte) }
{
    ffi::malstrink_scs_type(byte)
}
