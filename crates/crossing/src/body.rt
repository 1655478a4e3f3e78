// A body that was read, and a triple of one.
ghost use Rattle.std.specs.Prelude.{◌≡◌, ◌-◌, length};
ghost use Rattle.laws.specs.Answer.{Answer.given};
ghost use Rattle.body_message.specs.Message.{Message.pdid};
ghost use Rattle.body_read.specs.Reading.{message_in, read_answer};
ghost use Rattle.body_read.specs.Lookup.{triple_answer};
ghost use Rattle.crossing.specs.Answers.{c_given};
ghost use Rattle.crossing.specs.Bodies.{c_bare, c_body, c_triple, c_triple_at};

use super::answer::{CAnswer, given};
use body_read::{Body, DeviceId, Triple, badge_number, triple_at};
use refusal::Refusal;

// What the kind does not have is 0; all 0 beside a refusal. What follows the numbers stays in the payload, at the place of rest.
#[repr(C)]
#[derive(Clone, Copy)]
pub struct CBody {
    pub answer: CAnswer,
    pub code: u8,
    pub error: u8,
    pub vendor: [u8; 3],
    pub model: u8,
    pub version: u8,
    pub serial: u32,
    pub firmware_major: u8,
    pub firmware_minor: u8,
    pub firmware_build: u8,
    pub tamper: u8,
    pub power: u8,
    pub reader: u8,
    pub format: u8,
    pub bits: u16,
    pub count: u8,
    pub rest_start: usize,
    pub rest_len: usize,
    pub has_number: bool,
    pub number: u64,
}

// Where there is none, all is 0.
#[repr(C)]
#[derive(Clone, Copy)]
pub struct CTriple {
    pub there: bool,
    pub function: u8,
    pub compliance: u8,
    pub number: u8,
}

// No number of any kind is told yet.
fn bare(answer: CAnswer, code: u8, start: usize, len: usize) -> CBody
    ensures { result ≡ c_bare answer code start len }
{
    CBody {
        answer,
        code,
        error: 0,
        vendor: [0; 3],
        model: 0,
        version: 0,
        serial: 0,
        firmware_major: 0,
        firmware_minor: 0,
        firmware_build: 0,
        tamper: 0,
        power: 0,
        reader: 0,
        format: 0,
        bits: 0,
        count: 0,
        rest_start: start,
        rest_len: len,
        has_number: false,
        number: 0,
    }
}

// A body whose numbers end at start, in a payload of n bytes. Codes and starts below are C's table, a row each, as `c_body` has it.
fn begun(code: u8, start: usize, n: usize) -> CBody
    ensures { result ≡ c_bare (c_given 0) code start (n - start) }
{
    bare(given(0), code, start, n.saturating_sub(start))
}

fn device_c(id: DeviceId, n: usize) -> CBody
    ensures { result ≡ c_body n (given (pdid id.vendor1 id.vendor2 id.vendor3 id.model id.version id.serial id.major id.minor id.build)) }
{
    CBody {
        vendor: [id.vendor1, id.vendor2, id.vendor3],
        model: id.model,
        version: id.version,
        serial: id.serial,
        firmware_major: id.major,
        firmware_minor: id.minor,
        firmware_build: id.build,
        ..begun(0x45, 12, n)
    }
}

fn good_c(body: Body, payload: &[u8]) -> CBody
    ensures { result ≡ c_body (length payload.now) (given (message_in body payload.now)) }
{
    let n = payload.len();
    match body {
        Body::Ack => begun(0x40, 0, n),
        Body::Nak { error } => CBody {
            error,
            ..begun(0x41, 1, n)
        },
        Body::PdId(id) => device_c(id, n),
        Body::PdCap => begun(0x46, 0, n),
        Body::LStatR { tamper, power } => CBody {
            tamper,
            power,
            ..begun(0x48, 2, n)
        },
        Body::Raw {
            reader,
            format,
            bits,
        } => {
            let number = badge_number(body, payload);
            CBody {
                reader,
                format,
                bits,
                has_number: number.is_some(),
                number: number.unwrap_or(0),
                ..begun(0x50, 4, n)
            }
        }
        Body::Keypad { reader, count } => CBody {
            reader,
            count,
            ..begun(0x53, 2, n)
        },
    }
}

// The payload is the one that was read. No From, here and above, which would take what was read alone.
pub fn body_c(r: Result<Body, Refusal>, payload: &[u8]) -> CBody
    ensures { result ≡ c_body (length payload.now) (read_answer r payload.now) }
{
    match r {
        Ok(body) => good_c(body, payload),
        Err(e) => bare(e.into(), 0, 0, 0),
    }
}

impl From<Option<Triple>> for CTriple {
    ghost from_gives = { λ t c. c ≡ c_triple (triple_answer t) };

    fn from(t: Option<Triple>) -> CTriple {
        match t {
            Some(x) => CTriple {
                there: true,
                function: x.function,
                compliance: x.compliance,
                number: x.number,
            },
            None => CTriple {
                there: false,
                function: 0,
                compliance: 0,
                number: 0,
            },
        }
    }
}

// Triple i, counted from 0, of what was read in the payload. No From, as for `body_c`.
pub fn triple_c(r: Result<Body, Refusal>, payload: &[u8], i: usize) -> CTriple
    ensures { result ≡ c_triple_at i (read_answer r payload.now) }
{
    match r {
        Ok(body) => triple_at(body, payload, i).into(),
        Err(_) => None.into(),
    }
}
