// The key schedule, FIPS 197, 5.2: 44 words of four bytes, made a round key at a time.
ghost use Rattle.std.specs.Prelude.{◌≡◌};
ghost use Rattle.aes_field.specs.Packed.{unpacked};
ghost use Rattle.aes.specs.KeyExpansion.{key_expansion};
ghost use Rattle.aes.specs.Halves.{key_turn, carry, halves_bytes, schedule_of};
ghost use Rattle.aes.specs.RoundKey.{next_key};

use crate::round::{self, Halves};
use aes_field::field;

// SubWord of RotWord of the last column of y, and c, the round's constant, at its first byte.
fn turned(t: &[u8; 256], y: u64, c: u8) -> u64
    ensures { unpacked 8 result ≡ key_turn t.now c (unpacked 8 y) }
{
    field::pack([
        round::sub(t, y >> 40) ^ c,
        round::sub(t, y >> 48),
        round::sub(t, y >> 56),
        round::sub(t, y >> 32),
        0,
        0,
        0,
        0,
    ])
}

// The sum of x and v, and its first column added to its second: a half of a round key, where v is what its first word takes.
fn half(x: u64, v: u64) -> u64
    ensures { unpacked 8 result ≡ carry (unpacked 8 x) (unpacked 8 v) }
{
    let z = x ^ v;
    z ^ (z << 32)
}

// The round key after `key`, where c is the round's constant.
fn next(t: &[u8; 256], key: Halves, c: u8) -> Halves
    ensures { halves_bytes result ≡ next_key t.now c (halves_bytes key) }
{
    let first = half(key.first, turned(t, key.second, c));
    let second = half(key.second, first >> 32);
    Halves { first, second }
}

// The schedule of a key.
pub(crate) fn expand(t: &[u8; 256], key: [u8; 16]) -> [Halves; 11]
    ensures { schedule_of result ≡ key_expansion t.now key }
{
    let mut keys = [Halves::from(key); 11];
    let mut c = 1u8;
    // an index, and no iterator: a key is made from the one that was written before it
    for r in 0..10 {
        keys[r + 1] = next(t, keys[r], c);
        c = field::twice(c);
    }
    keys
}
