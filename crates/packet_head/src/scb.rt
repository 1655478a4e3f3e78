// The security block that may follow the control byte. `from_byte` and `as_byte` are the Rust's names, by which docs/PROMISES.md promises
// them, and therefore no TryFrom or From.
ghost use Rattle.std.specs.Prelude.{◌≡◌, ◌+◌};
ghost use Rattle.packet_head.specs.Numbers.{SCB_HEADER_LEN};
ghost use Rattle.packet_head.specs.Block.{type_of, has_mac, is_encrypted, is_handshake, scs_of, scs_answer, scb_of, scb_answer};

use super::numbers::SCB_HEADER_LEN;
use refusal::Refusal;

// The type of a security block, 11 to 18.
#[derive(Clone, Copy, PartialEq, Eq)]
pub enum ScsType {
    Scs11,
    Scs12,
    Scs13,
    Scs14,
    Scs15,
    Scs16,
    Scs17,
    Scs18,
}

impl ScsType {
    #[tactic(auto, unfolding(crate::specs::Block::scs_of, laws::specs::Answer::refuse_if))]
    pub fn from_byte(b: u8) -> Result<Self, Refusal>
        ensures { scs_answer result ≡ scs_of b }
    {
        match b {
            0x11 => Ok(ScsType::Scs11),
            0x12 => Ok(ScsType::Scs12),
            0x13 => Ok(ScsType::Scs13),
            0x14 => Ok(ScsType::Scs14),
            0x15 => Ok(ScsType::Scs15),
            0x16 => Ok(ScsType::Scs16),
            0x17 => Ok(ScsType::Scs17),
            0x18 => Ok(ScsType::Scs18),
            _ => Err(Refusal::BadSecurityBlock(b)),
        }
    }

    pub fn as_byte(self) -> u8
        ensures { result ≡ type_of self }
    {
        match self {
            ScsType::Scs11 => 0x11,
            ScsType::Scs12 => 0x12,
            ScsType::Scs13 => 0x13,
            ScsType::Scs14 => 0x14,
            ScsType::Scs15 => 0x15,
            ScsType::Scs16 => 0x16,
            ScsType::Scs17 => 0x17,
            ScsType::Scs18 => 0x18,
        }
    }

    // Whether four bytes of MAC stand before the trailer.
    pub fn has_mac(self) -> bool
        ensures { result ≡ has_mac (type_of self) }
    {
        0x15 <= self.as_byte()
    }

    pub fn is_encrypted(self) -> bool
        ensures { result ≡ is_encrypted (type_of self) }
    {
        0x17 <= self.as_byte()
    }

    pub fn is_handshake(self) -> bool
        ensures { result ≡ is_handshake (type_of self) }
    {
        self.as_byte() <= 0x14
    }
}

// A block that was read: its type, and how many bytes of data follow its first two.
#[derive(Clone, Copy, PartialEq, Eq)]
pub struct Scb {
    pub ty: ScsType,
    pub data_len: u8,
}

impl Scb {
    // The block's length on the wire, its own two bytes counted.
    pub fn wire_len(self) -> usize
        ensures { result ≡ self.data_len + SCB_HEADER_LEN }
    {
        usize::from(self.data_len) + SCB_HEADER_LEN
    }

    // Reads the block at the start of buf: the part of a frame from its byte 5 on.
    #[tactic(auto, unfolding(crate::specs::Block::scb_of, laws::specs::Answer::refuse_if, laws::specs::Answer::and_then))]
    pub fn parse(buf: &[u8]) -> Result<Self, Refusal>
        ensures { scb_answer result ≡ scb_of buf.now }
    {
        if buf.len() < SCB_HEADER_LEN {
            return Err(Refusal::Truncated {
                have: buf.len(),
                need: SCB_HEADER_LEN,
            });
        }
        let len = usize::from(buf[0]);
        if len < SCB_HEADER_LEN {
            return Err(Refusal::BadSecurityBlockLength(buf[1]));
        }
        if buf.len() < len {
            return Err(Refusal::Truncated {
                have: buf.len(),
                need: len,
            });
        }
        Ok(Self {
            ty: ScsType::from_byte(buf[1])?,
            data_len: (len - SCB_HEADER_LEN) as u8,
        })
    }
}
