// Reading the body of a reply, and a triple of one.
ghost use Rattle.std.specs.Prelude.{◌≡◌, length};
ghost use Rattle.body_message.specs.Body.{read_of};
ghost use Rattle.crossing.specs.Bodies.{c_body, c_triple_at};

use crossing::{CBody, CTriple};

#[unsafe(no_mangle)]
pub extern "C" fn malstrink_read_body(code: u8, payload: &[u8]) -> CBody
    ensures { result ≡ c_body (length payload.now) (read_of code payload.now) }
{
    ffi::malstrink_read_body(code, payload)
}

// The body is read anew; i counts from 0.
#[unsafe(no_mangle)]
pub extern "C" fn malstrink_triple(code: u8, payload: &[u8], i: usize) -> CTriple
    ensures { result ≡ c_triple_at i (read_of code payload.now) }
{
    ffi::malstrink_triple(code, payload, i)
}
