// The badge of a RAW as one number.
ghost use Rattle.std.specs.Prelude.{◌≡◌, ◌≤◌, length};
ghost use Rattle.body_message.specs.Lookup.{all_bits, binary, badge_in, message_badge};
ghost use Rattle.body_read.specs.Reading.{message_in};
ghost use Rattle.body_read.specs.Lookup.{badge_answer};

use super::body::Body;
use super::lookup::rest;
use super::reading::bytes_for;

// The bits of at most eight bytes, the first one highest; from_be_bytes wants eight.
fn bits_as_number(bytes: &[u8]) -> u64
    requires { length bytes.now ≤ 8 }
    ensures { result ≡ binary 0 (all_bits bytes.now) }
{
    let mut a = 0;
    for b in bytes {
        a = a * 256 + u64::from(*b);
    }
    a
}

#[tactic(auto, using(crate::proofs::Cases::by_bits))]
fn number_in(bits: u16, bytes: &[u8]) -> Option<u64>
    ensures { badge_answer result ≡ badge_in bits bytes.now }
{
    if bits < 1 || 64 < bits || bytes.len() != bytes_for(bits) {
        return None;
    }
    let spare = bytes.len() * 8 - usize::from(bits);
    Some(bits_as_number(bytes) >> spare)
}

// The bits of a RAW as they stand, the first one highest, where there are 1 to 64.
pub fn badge_number(body: Body, payload: &[u8]) -> Option<u64>
    ensures { badge_answer result ≡ message_badge (message_in body payload.now) }
{
    match body {
        Body::Raw { bits, .. } => number_in(bits, rest(body, payload)),
        _ => None,
    }
}
