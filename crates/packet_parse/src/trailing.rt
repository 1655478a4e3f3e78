// Whether a frame ends as its bytes want.
ghost use Rattle.std.specs.Prelude.{◌≡◌, ◌≤◌, true, false, length};
ghost use Rattle.packet_head.specs.Numbers.{CHECKSUM_LEN, CRC_LEN};
ghost use Rattle.packet_parse.specs.Trailer.{trailer_of, trailer_answer};

use packet_head::{CHECKSUM_LEN, CRC_LEN, Trailer};
use refusal::Refusal;
use slices::word;

#[tactic(auto, unfolding(crate::specs::Trailer::trailer_of, laws::specs::Answer::refuse_if))]
fn check_crc(f: &[u8]) -> Result<Trailer, Refusal>
    requires { CRC_LEN ≤ length f.now }
    ensures { trailer_answer result ≡ trailer_of f.now true }
{
    let n = f.len();
    let got = word(f[n - CRC_LEN], f[n - 1]);
    let want = packet_sums::crc16(&f[..n - CRC_LEN]);
    if got == want {
        Ok(Trailer::Crc(got))
    } else {
        Err(Refusal::BadCrc { got, want })
    }
}

fn check_sum(f: &[u8]) -> Result<Trailer, Refusal>
    requires { CHECKSUM_LEN ≤ length f.now }
    ensures { trailer_answer result ≡ trailer_of f.now false }
{
    let n = f.len();
    let got = f[n - CHECKSUM_LEN];
    // the whole frame is summed and its last byte taken out again: faster than a slice that is one shorter
    let want = got.wrapping_add(packet_sums::checksum8(f));
    if got == want {
        Ok(Trailer::Checksum(got))
    } else {
        Err(Refusal::BadChecksum { got, want })
    }
}

// The trailer of the whole frame f. `crc` is the control byte's bit: an if is plainest.
pub(crate) fn check(f: &[u8], crc: bool) -> Result<Trailer, Refusal>
    requires { CRC_LEN ≤ length f.now }
    ensures { trailer_answer result ≡ trailer_of f.now crc }
{
    if crc { check_crc(f) } else { check_sum(f) }
}
