// What has no fixed length, looked up in the payload that was read. Nothing is read past its end. A body and its payload come as two
// parameters: docs/PROMISES.md promises the calls so, and of a payload that a body was not read from as well.
ghost use Rattle.std.specs.Prelude.{◌≡◌, length};
ghost use Rattle.slices.specs.Stretch.{stretch_of};
ghost use Rattle.slices.specs.Place.{part_seen};
ghost use Rattle.body_message.specs.Lookup.{message_triple};
ghost use Rattle.body_read.specs.Reading.{rest_start_of, rest_length, message_in};
ghost use Rattle.body_read.specs.Lookup.{triple_answer};

use super::body::Body;
use super::reading::bytes_for;

// Where the numbers of a body end.
fn rest_start(body: Body) -> usize
    ensures { result ≡ rest_start_of body }
{
    match body {
        Body::Ack | Body::PdCap => 0,
        Body::Nak { .. } => 1,
        Body::PdId(_) => 12,
        Body::LStatR { .. } | Body::Keypad { .. } => 2,
        Body::Raw { .. } => 4,
    }
}

// How many bytes follow them, in a payload of n.
fn rest_length(body: Body, n: usize) -> usize
    ensures { result ≡ rest_length body n }
{
    match body {
        Body::Nak { .. } => n.saturating_sub(1),
        Body::PdCap => n,
        Body::Raw { bits, .. } => bytes_for(bits),
        Body::Keypad { count, .. } => usize::from(count),
        Body::Ack | Body::PdId(_) | Body::LStatR { .. } => 0,
    }
}

// What follows the numbers: the rest of a NAK, the bits of a RAW, the digits of a KEYPAD, the triples of a PDCAP; of any other nothing.
pub fn rest(body: Body, payload: &[u8]) -> &[u8]
    ensures { stretch_of result ≡ part_seen payload.entry (rest_start_of body) (rest_length body (length payload.now)) }
{
    slices::part(payload, rest_start(body), rest_length(body, payload.len()))
}

// A capability of a PDCAP.
#[derive(Clone, Copy)]
pub struct Triple {
    pub function: u8,
    pub compliance: u8,
    pub number: u8,
}

// Triple i, counted from 0, of a PDCAP; any other body has none.
pub fn triple_at(body: Body, payload: &[u8], i: usize) -> Option<Triple>
    ensures { triple_answer result ≡ message_triple (message_in body payload.now) i }
{
    match body {
        Body::PdCap => triple_in(payload, i),
        _ => None,
    }
}

// By its number: tried with as_chunks and get, whose proof did not close.
fn triple_in(payload: &[u8], i: usize) -> Option<Triple>
    ensures { triple_answer result ≡ message_triple (message_in Body.PdCap payload.now) i }
{
    if payload.len() / 3 <= i {
        return None;
    }
    let at = i * 3;
    Some(Triple {
        function: payload[at],
        compliance: payload[at + 1],
        number: payload[at + 2],
    })
}
