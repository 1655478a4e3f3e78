// The state of the cipher as two numbers, and the steps of a round on it. The tables are lent.
ghost use Rattle.std.specs.Prelude.{◌≡◌, ◌%◌, get_or};
ghost use Rattle.aes_field.specs.Packed.{unpacked};
ghost use Rattle.aes.specs.Halves.{rows_shifted, halves_bytes, added};

use aes_field::field;
use std::ops::BitXor;

// Sixteen bytes, a state or a round key: two columns in each number, the first byte lowest.
#[derive(Clone, Copy)]
pub struct Halves {
    pub first: u64,
    pub second: u64,
}

impl From<[u8; 16]> for Halves {
    ghost from_gives = { λ block s. halves_bytes s ≡ block };

    fn from(block: [u8; 16]) -> Self {
        Halves {
            first: field::pack(*block.first_chunk().unwrap()),
            second: field::pack(*block.last_chunk().unwrap()),
        }
    }
}

impl From<Halves> for [u8; 16] {
    ghost from_gives = { λ s block. block ≡ halves_bytes s };

    fn from(s: Halves) -> [u8; 16] {
        let mut block = [0; 16];
        block[..8].copy_from_slice(&field::unpack(s.first));
        block[8..].copy_from_slice(&field::unpack(s.second));
        block
    }
}

impl BitXor for Halves {
    type Output = Halves;

    ghost bitxor_gives = { λ s k r. halves_bytes r ≡ added (halves_bytes s) (halves_bytes k) };

    #[tactic(auto, using(crate::proofs::InHalves::add_halves))]
    fn bitxor(self, key: Halves) -> Halves {
        Halves {
            first: self.first ^ key.first,
            second: self.second ^ key.second,
        }
    }
}

impl Halves {
    pub(crate) fn swapped(self) -> Halves
        ensures { result ≡ record { first = self.second; second = self.first } }
    {
        Halves {
            first: self.second,
            second: self.first,
        }
    }
}

// The byte that a table puts in the place of the lowest byte of x.
pub(crate) fn sub(t: &[u8; 256], x: u64) -> u8
    ensures { result ≡ get_or t.now (x % 256) 0 }
{
    t[(x & 255) as usize]
}

// SubBytes, and the rows shifted, of the first half: its rows 0 and 2 come from `even`, its rows 1 and 3 from `odd`.
pub(crate) fn substitute(t: &[u8; 256], even: Halves, odd: Halves) -> u64
    ensures { unpacked 8 result ≡ rows_shifted t.now (unpacked 8 even.first) (unpacked 8 even.second) (unpacked 8 odd.first) (unpacked 8 odd.second) }
{
    // no loop over a list of places: each line is one, and its half with it
    field::pack([
        sub(t, even.first),
        sub(t, odd.first >> 40),
        sub(t, even.second >> 16),
        sub(t, odd.second >> 56),
        sub(t, even.first >> 32),
        sub(t, odd.second >> 8),
        sub(t, even.second >> 48),
        sub(t, odd.first >> 24),
    ])
}
