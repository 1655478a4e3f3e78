// Reads a body whole, or refuses it by 19.
ghost use Rattle.std.specs.Prelude.{◌≡◌};
ghost use Rattle.body_message.specs.Message.{Kind, bytes_for};
ghost use Rattle.body_message.specs.Body.{read_as, read_of};
ghost use Rattle.body_read.specs.Reading.{read_answer, body_answer};

use super::body::{Body, DeviceId};
use refusal::Refusal;

// The bytes that so many bits need.
pub(crate) fn bytes_for(bits: u16) -> usize
    ensures { result ≡ bytes_for bits }
{
    usize::from(bits).div_ceil(8)
}

fn ack(payload: &[u8]) -> Option<Body>
    ensures { body_answer 0x40 result payload.now ≡ read_as Kind.ACK payload.now }
{
    match payload {
        [] => Some(Body::Ack),
        _ => None,
    }
}

fn nak(payload: &[u8]) -> Option<Body>
    ensures { body_answer 0x41 result payload.now ≡ read_as Kind.NAK payload.now }
{
    match payload {
        &[error, ..] => Some(Body::Nak { error }),
        _ => None,
    }
}

fn pdid(payload: &[u8]) -> Option<Body>
    ensures { body_answer 0x45 result payload.now ≡ read_as Kind.PDID payload.now }
{
    let &[
        vendor1,
        vendor2,
        vendor3,
        model,
        version,
        s0,
        s1,
        s2,
        s3,
        major,
        minor,
        build,
    ] = payload
    else {
        return None;
    };
    Some(Body::PdId(DeviceId {
        vendor1,
        vendor2,
        vendor3,
        model,
        version,
        serial: u32::from_le_bytes([s0, s1, s2, s3]),
        major,
        minor,
        build,
    }))
}

fn pdcap(payload: &[u8]) -> Option<Body>
    ensures { body_answer 0x46 result payload.now ≡ read_as Kind.PDCAP payload.now }
{
    if payload.is_empty() || payload.len() % 3 != 0 {
        return None;
    }
    Some(Body::PdCap)
}

fn lstatr(payload: &[u8]) -> Option<Body>
    ensures { body_answer 0x48 result payload.now ≡ read_as Kind.LSTATR payload.now }
{
    match payload {
        &[tamper, power] => Some(Body::LStatR { tamper, power }),
        _ => None,
    }
}

fn raw(payload: &[u8]) -> Option<Body>
    ensures { body_answer 0x50 result payload.now ≡ read_as Kind.RAW payload.now }
{
    let &[reader, format, lo, hi, ref bytes @ ..] = payload else {
        return None;
    };
    let bits = u16::from_le_bytes([lo, hi]);
    if bytes.len() != bytes_for(bits) {
        return None;
    }
    Some(Body::Raw {
        reader,
        format,
        bits,
    })
}

fn keypad(payload: &[u8]) -> Option<Body>
    ensures { body_answer 0x53 result payload.now ≡ read_as Kind.KEYPAD payload.now }
{
    let &[reader, count, ref digits @ ..] = payload else {
        return None;
    };
    if digits.len() != usize::from(count) {
        return None;
    }
    Some(Body::Keypad { reader, count })
}

// The paper's table, a row each.
#[tactic(auto, using(crate::proofs::Cases::by_code))]
fn body_of(code: u8, payload: &[u8]) -> Option<Body>
    ensures { body_answer code result payload.now ≡ read_of code payload.now }
{
    match code {
        0x40 => ack(payload),
        0x41 => nak(payload),
        0x45 => pdid(payload),
        0x46 => pdcap(payload),
        0x48 => lstatr(payload),
        0x50 => raw(payload),
        0x53 => keypad(payload),
        _ => None,
    }
}

// What the payload of a frame with this code says.
pub fn read(code: u8, payload: &[u8]) -> Result<Body, Refusal>
    ensures { read_answer result payload.now ≡ read_of code payload.now }
{
    body_of(code, payload).ok_or(Refusal::BadBody(code))
}
