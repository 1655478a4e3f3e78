// The end of a frame, by its kind.
ghost use Rattle.std.specs.Prelude.{◌≡◌, ◌≤◌};
ghost use Rattle.packet_head.specs.Numbers.{CHECKSUM_LEN, CRC_LEN};
ghost use Rattle.packet_head.specs.Trailer.{tail, is_crc, trailer_len};

use super::numbers::{CHECKSUM_LEN, CRC_LEN};

#[derive(Clone, Copy)]
pub enum Trailer {
    Checksum(u8),
    Crc(u16),
}

impl Trailer {
    pub fn is_crc(self) -> bool
        ensures { result ≡ is_crc (tail self) }
    {
        match self {
            Trailer::Checksum(_) => false,
            Trailer::Crc(_) => true,
        }
    }
}

// How many bytes a trailer has. One expression: an if is plainest.
pub fn trailer_len(crc: bool) -> usize
    ensures { (result ≡ trailer_len crc) × (result ≤ CRC_LEN) × (CHECKSUM_LEN ≤ result) }
{
    if crc { CRC_LEN } else { CHECKSUM_LEN }
}
