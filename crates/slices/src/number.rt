// Numbers of two and four bytes, the low byte first.
ghost use Rattle.std.specs.Prelude.{◌≡◌, [], ◌∷◌};
ghost use Rattle.slices.specs.Place.{part_of};
ghost use Rattle.slices.specs.Number.{low_first, low_number};

use super::place::part;

// docs/PROMISES.md promises this call, `bytes_of_u16` and `bytes_of_u32` by their names: one call of std each.
pub fn word(lo: u8, hi: u8) -> u16
    ensures { result ≡ low_number (lo ∷ hi ∷ []) }
{
    u16::from_le_bytes([lo, hi])
}

// The number in the two bytes of s from `at` on. 0 and no Option where they run past its end: docs/PROMISES.md promises it, as
// `low_number` of `part_of`. A call for each width: std's call is all that differs, and each is one expression.
#[tactic(auto, unfolding(crate::specs::Place::part_of))]
pub fn read_u16(s: &[u8], at: usize) -> u16
    ensures { result ≡ low_number (part_of s.now at 2) }
{
    part(s, at, 2)
        .first_chunk()
        .map_or(0, |bytes| u16::from_le_bytes(*bytes))
}

// The same of four bytes.
#[tactic(auto, unfolding(crate::specs::Place::part_of))]
pub fn read_u32(s: &[u8], at: usize) -> u32
    ensures { result ≡ low_number (part_of s.now at 4) }
{
    part(s, at, 4)
        .first_chunk()
        .map_or(0, |bytes| u32::from_le_bytes(*bytes))
}

pub fn bytes_of_u16(x: u16) -> [u8; 2]
    ensures { result ≡ low_first 2 x }
{
    u16::to_le_bytes(x)
}

pub fn bytes_of_u32(x: u32) -> [u8; 4]
    ensures { result ≡ low_first 4 x }
{
    u32::to_le_bytes(x)
}
