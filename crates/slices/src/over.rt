// Bytes written over a part of a slice.
ghost use Rattle.std.specs.Prelude.{◌≡◌, not, ◌+◌, ◌≤◌, length};
ghost use Rattle.laws.specs.Over.{write};
ghost use Rattle.slices.specs.Place.{runs_past};
ghost use Rattle.slices.specs.Copy.{copy_of, zero_of};

use super::place::{end_of, outside};

// All of src over out from `at` on. By index and not by copy_from_slice, which asks memmove of whoever links the archive:
// include/malstrink.h promises that it asks for memcpy and memset and nothing else.
fn lay(out: &mut [u8], at: usize, src: &[u8])
    requires { at + length src.now ≤ length out.old }
    ensures { out.new ≡ write out.old at src.now }
{
    for i in 0..src.len() {
        out[at + i] = src[i];
    }
}

// Writes src over out from `at` on, and answers whether there was room: where there was not, nothing is written.
#[tactic(auto, unfolding(crate::specs::Copy::copy_of))]
pub fn copy(out: &mut [u8], at: usize, src: &[u8]) -> bool
    ensures value { result ≡ not (runs_past (length out.old) at (length src.now)) }
    ensures out_after { out.new ≡ copy_of out.old at src.now }
{
    if outside(out.len(), at, src.len()) {
        return false;
    }
    lay(out, at, src);
    true
}

// Writes n zeros over out from `at` on, or as many as have room: of what is to be wiped nothing stays that could go.
pub fn zero(out: &mut [u8], at: usize, n: usize)
    ensures { out.new ≡ zero_of out.old at n }
{
    let end = end_of(at, n).min(out.len());
    if at < end {
        // A `for` over the items and not `fill`, which stores the last byte apart: thirteen instructions more a call.
        for byte in out[at..end].iter_mut() {
            *byte = 0;
        }
    }
}
