// Blocks of sixteen bytes, in slices that the caller lends.
ghost use Rattle.std.specs.Prelude.{◌≡◌, ◌+◌, ◌≤◌, length, take, drop};
ghost use Rattle.laws.specs.Bytes.{xorl};
ghost use Rattle.laws.specs.Over.{write};

use std::array;

pub(crate) fn xor(a: [u8; 16], b: [u8; 16]) -> [u8; 16]
    ensures { result ≡ xorl a b }
{
    array::from_fn(|i| a[i] ^ b[i])
}

// The sixteen bytes of s from `at` on.
pub(crate) fn block_at(s: &[u8], at: usize) -> [u8; 16]
    requires { at + 16 ≤ length s.now }
    ensures { result ≡ take 16 (drop at s.now) }
{
    *s[at..].first_chunk().unwrap()
}

// Writes b over the sixteen bytes of out from `at` on.
#[tactic(auto, using(laws::proofs::Overwrite::part_write))]
pub(crate) fn put(out: &mut [u8], at: usize, b: [u8; 16])
    requires { at + 16 ≤ length out.old }
    ensures { out.new ≡ write out.old at b }
{
    out[at..at + 16].copy_from_slice(&b);
}
