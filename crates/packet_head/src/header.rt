// Addresses, sequence numbers and the control byte. What converts them has the Rust's names, by which docs/PROMISES.md promises it, and
// is therefore no From or TryFrom.
ghost use Rattle.std.specs.Prelude.{◌≡◌, cond, ◌%◌, ◌≤◌, leb, eqb};
ghost use Rattle.packet_head.specs.Numbers.{BROADCAST_ADDR, REPLY_FLAG};
ghost use Rattle.packet_head.specs.Header.{pd_of, reply_of, address_answer, sqn_of, next_of, sqn_answer, control, control_of, control_answer, encode_of, encoded_answer};

use super::numbers::{BROADCAST_ADDR, MAX_SQN, REPLY_FLAG};
use refusal::Refusal;

// The address byte of a frame, with the reply flag.
#[derive(Clone, Copy, PartialEq, Eq)]
pub struct Address(u8);

impl Address {
    // Every reader takes a frame with this address for its own.
    pub const BROADCAST: Self = Self(BROADCAST_ADDR);

    // Set in what a reader sends.
    pub const REPLY_FLAG: u8 = REPLY_FLAG;

    // Any byte, as it stands in a frame.
    pub fn from_raw(byte: u8) -> Self
        ensures { result.0 ≡ byte }
    {
        Self(byte)
    }

    // For a frame from the controller.
    #[tactic(auto, unfolding(crate::specs::Header::pd_of, laws::specs::Answer::refuse_if))]
    pub fn pd(addr: u8) -> Result<Self, Refusal>
        ensures { address_answer result ≡ pd_of addr }
    {
        if addr > BROADCAST_ADDR {
            return Err(Refusal::BadAddress(addr));
        }
        Ok(Self(addr))
    }

    // For a frame from the reader.
    #[tactic(auto, unfolding(crate::specs::Header::reply_of, crate::specs::Header::pd_of, laws::specs::Answer::refuse_if))]
    pub fn reply(addr: u8) -> Result<Self, Refusal>
        ensures { address_answer result ≡ reply_of addr }
    {
        let pd = Self::pd(addr)?;
        Ok(Self(pd.0 + Self::REPLY_FLAG))
    }

    pub fn as_byte(self) -> u8
        ensures { result ≡ self.0 }
    {
        self.0
    }

    // Without the reply flag.
    pub fn pd_addr(self) -> u8
        ensures { result ≡ self.0 % REPLY_FLAG }
    {
        self.0 % Self::REPLY_FLAG
    }

    pub fn is_reply(self) -> bool
        ensures { result ≡ leb REPLY_FLAG self.0 }
    {
        Self::REPLY_FLAG <= self.0
    }

    pub fn is_broadcast(self) -> bool
        ensures { result ≡ eqb (self.0 % REPLY_FLAG) BROADCAST_ADDR }
    {
        self.pd_addr() == Self::BROADCAST.0
    }
}

// A sequence number, 0 to 3.
#[derive(Clone, Copy, PartialEq, Eq)]
pub struct Sqn(u8);

impl Sqn {
    // The number at the start and after a fault.
    pub const ZERO: Self = Self(0);

    #[tactic(auto, unfolding(crate::specs::Header::sqn_of, laws::specs::Answer::refuse_if))]
    pub fn new(n: u8) -> Result<Self, Refusal>
        ensures { sqn_answer result ≡ sqn_of n }
    {
        if n > MAX_SQN {
            return Err(Refusal::BadSqn(n));
        }
        Ok(Self(n))
    }

    pub fn value(self) -> u8
        ensures { result ≡ self.0 }
    {
        self.0
    }

    // The number of the next command: 0 comes only at the start.
    #[tactic(auto, unfolding(crate::specs::Header::next_of, laws::specs::Answer::refuse_if))]
    pub fn next(self) -> Result<Self, Refusal>
        ensures { sqn_answer result ≡ next_of self.0 }
    {
        let n = self.0;
        match n {
            0 => Ok(Self(1)),
            1 => Ok(Self(2)),
            2 => Ok(Self(3)),
            3 => Ok(Self(1)),
            _ => Err(Refusal::BadSqn(n)),
        }
    }
}

// The control byte, taken apart: the two flags as yes or no.
#[derive(Clone, Copy, PartialEq, Eq)]
pub struct ControlByte {
    pub sqn: Sqn,
    pub crc: bool,
    pub block: bool,
}

// `mac_len` (packet_parse) and `if_on` (packet_build) say the same of lengths: one expression each; a generic one is no plainer.
fn flag(on: bool, bit: u8) -> u8
    ensures { (result ≡ cond on bit 0) × (result ≤ bit) }
{
    if on { bit } else { 0 }
}

impl ControlByte {
    // The trailer is a CRC.
    pub const USE_CRC: u8 = 0x04;

    // A security block follows.
    pub const HAS_SCB: u8 = 0x08;

    pub fn new(sqn: Sqn, crc: bool, block: bool) -> Self
        ensures { control result ≡ record { sqn = sqn.0; crc = crc; block = block } }
    {
        Self { sqn, crc, block }
    }

    #[tactic(auto, unfolding(crate::specs::Header::control_of, laws::specs::Answer::refuse_if))]
    pub fn decode(byte: u8) -> Result<Self, Refusal>
        ensures { control_answer result ≡ control_of byte }
    {
        if 16 <= byte {
            return Err(Refusal::BadControlByte(byte));
        }
        Ok(Self {
            sqn: Sqn(byte % 4),
            crc: byte / Self::USE_CRC % 2 == 1,
            block: byte / Self::HAS_SCB == 1,
        })
    }

    // An SQN above 3 is refused: reduced, it would be another frame's number.
    #[tactic(auto, unfolding(crate::specs::Header::encode_of, laws::specs::Answer::refuse_if))]
    pub fn encode(self) -> Result<u8, Refusal>
        ensures { encoded_answer result ≡ encode_of (control self) }
    {
        let n = self.sqn.0;
        if MAX_SQN < n {
            return Err(Refusal::BadSqn(n));
        }
        Ok(n + flag(self.crc, Self::USE_CRC) + flag(self.block, Self::HAS_SCB))
    }

    pub fn use_crc(self) -> bool
        ensures { result ≡ self.crc }
    {
        self.crc
    }

    pub fn has_scb(self) -> bool
        ensures { result ≡ self.block }
    {
        self.block
    }
}
