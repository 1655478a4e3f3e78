// Addresses, sequence numbers, the control byte and the block's type.
ghost use Rattle.std.specs.Prelude.{◌≡◌};
ghost use Rattle.packet_head.specs.Header.{control_answer};
ghost use Rattle.packet_head.specs.Block.{type_of};
ghost use Rattle.crossing.specs.Answers.{c_control};

use super::answer::{CAnswer, Told, given};
use packet_head::{Address, ControlByte, ScsType, Sqn};
use refusal::Refusal;

// A control byte, taken apart.
#[repr(C)]
#[derive(Clone, Copy)]
pub struct CControl {
    pub answer: CAnswer,
    pub sqn: u8,
    pub crc: bool,
    pub block: bool,
}

impl Told for Address {
    ghost number = { λ addr. addr.0 };

    fn number(self) -> usize {
        self.as_byte().into()
    }
}

impl Told for Sqn {
    ghost number = { λ sqn. sqn.0 };

    fn number(self) -> usize {
        self.value().into()
    }
}

// A control byte, put together.
impl Told for u8 {
    ghost number = { λ byte. byte };

    fn number(self) -> usize {
        self.into()
    }
}

impl Told for ScsType {
    ghost number = { type_of };

    fn number(self) -> usize {
        self.as_byte().into()
    }
}

impl From<Result<ControlByte, Refusal>> for CControl {
    ghost from_gives = { λ r c. c ≡ c_control (control_answer r) };

    fn from(r: Result<ControlByte, Refusal>) -> CControl {
        match r {
            Ok(c) => CControl {
                answer: given(0),
                sqn: c.sqn.value(),
                crc: c.crc,
                block: c.block,
            },
            Err(e) => CControl {
                answer: e.into(),
                sqn: 0,
                crc: false,
                block: false,
            },
        }
    }
}
