// Bytes as elements of GF(2^8), and the mixing of two columns at a time. Two columns stand in one number of 64 bits, the first
// byte lowest, so that a sum or a product by x is made for eight bytes at once.
ghost use Rattle.std.specs.Prelude.{◌≡◌, ◌⊎◌, map};
ghost use Rattle.aes_field.specs.Field.{xtime};
ghost use Rattle.aes_field.specs.Mix.{mix_byte, inv_mix_byte};
ghost use Rattle.aes_field.specs.Packed.{packed, unpacked, columns, row};

// x times a byte.
pub fn twice(a: u8) -> u8
    ensures { result ≡ xtime a }
{
    (a << 1) ^ ((a >> 7) * 27)
}

// Eight bytes in one number.
pub fn pack(bytes: [u8; 8]) -> u64
    ensures { unpacked 8 result ≡ bytes }
{
    u64::from_le_bytes(bytes)
}

// The eight bytes of a number.
#[tactic(auto, using(crate::proofs::Packing::le_bytes_unpacked))]
pub fn unpack(x: u64) -> [u8; 8]
    ensures { result ≡ unpacked 8 x }
{
    x.to_le_bytes()
}

// x times each byte. 1b is added where a bit falls out of a byte: that bit spread over the seven below it, under a mask.
#[tactic(auto, using(crate::proofs::Packing::twice_each))]
fn twice_each(x: u64) -> u64
    ensures { result ≡ packed (map xtime (unpacked 8 x)) }
{
    let top = x & 0x8080808080808080;
    ((x & 0x7f7f7f7f7f7f7f7f) << 1) ^ ((top - (top >> 7)) & 0x1b1b1b1b1b1b1b1b)
}

// Each byte replaced by the one ROWS below it in its column, where the first comes after the last.
#[tactic(auto, using(crate::proofs::Packing::turned))]
fn turn<const ROWS: u32>(x: u64) -> u64
    requires { (ROWS ≡ 1) ⊎ (ROWS ≡ 2) }
    ensures { result ≡ packed (columns (row ROWS) (unpacked 8 x)) }
{
    let up = 8 * ROWS;
    let kept = (0xffffffff >> up) * 0x0000000100000001;
    ((x >> up) & kept) ^ ((x & !(kept << up)) << (32 - up))
}

// MixColumns of two columns: 02 a + 03 b + c + d is 02 (a + b) + b + (c + d).
#[tactic(auto, using(crate::proofs::Mixing::mix_two))]
pub fn mix(x: u64) -> u64
    ensures { unpacked 8 result ≡ columns mix_byte (unpacked 8 x) }
{
    let y = turn::<1>(x);
    let z = x ^ y;
    twice_each(z) ^ y ^ turn::<2>(z)
}

// InvMixColumns of two columns: each byte and 04 times the sum of it and the one two below it, mixed.
#[tactic(auto, using(crate::proofs::Mixing::unmix_two))]
pub fn unmix(x: u64) -> u64
    ensures { unpacked 8 result ≡ columns inv_mix_byte (unpacked 8 x) }
{
    mix(x ^ twice_each(twice_each(x ^ turn::<2>(x))))
}
