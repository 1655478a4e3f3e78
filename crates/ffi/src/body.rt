// Reading the body of a reply, and a triple of one.
ghost use Rattle.std.specs.Prelude.{◌≡◌, length};
ghost use Rattle.body_message.specs.Body.{read_of};
ghost use Rattle.crossing.specs.Bodies.{c_body, c_triple_at};

use body_read::read;
use crossing::{CBody, CTriple, body_c, triple_c};

pub fn malstrink_read_body(code: u8, payload: &[u8]) -> CBody
    ensures { result ≡ c_body (length payload.now) (read_of code payload.now) }
{
    body_c(read(code, payload), payload)
}

// The body is read anew; i counts from 0.
pub fn malstrink_triple(code: u8, payload: &[u8], i: usize) -> CTriple
    ensures { result ≡ c_triple_at i (read_of code payload.now) }
{
    triple_c(read(code, payload), payload, i)
}
