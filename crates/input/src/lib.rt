// What a program is to work on: the bytes of the file that its argument names, or those of standard input where the argument is `-`
// or missing. What goes wrong is said on standard error, in a line that begins `PROGRAM: cannot `; `run` makes the exit status of it.
#![tactic(auto)]

#[cfg(test)]
mod tests;

ghost use Rattle.std.specs.Prelude.{IfOk, IfSome};
ghost use Rattle.io.specs.Counts.{IsPrefixLen};
ghost use Rattle.input.specs.Filled.{FilledFrom};

use output::Program;
use std::env::{Env, FillError};
use std::fmt;
use std::fs::File;
use std::io::{Error, Read};

// What the system answers to a name that is too long, and to one that is not UTF-8, which std does not open.
const ENAMETOOLONG: i32 = 36;

const EILSEQ: i32 = 84;

// What is said where the input filled a buffer of so many bytes: whether there is more is not known.
#[derive(Clone, Copy)]
pub struct Limit(pub usize);

impl fmt::Display for Limit {
    fn fmt<W: fmt::Write>(&self, f: &mut fmt::Formatter<W>) -> fmt::Result {
        let most = self.0;
        write!(
            f,
            "{most} bytes were read, the most it reads; anything further was not read"
        )
    }
}

// Reads until the input ends or buf is full. Where a number is answered, that is promised of a reader whose bytes are known, as a slice's
// are; which bytes a file has no contract can say: those that came lie within buf.
// A loop by hand, since memory is fixed: `read_to_end` wants a `Vec`, and `read_exact` does not tell how many bytes a short input had.
#[tactic(auto, using(crate::proofs::Coming::came_more))]
pub fn fill<R: Read>(from: &mut R, buf: &mut [u8]) -> Result<usize, Error>
    ensures bound { IfOk result (λ n. IsPrefixLen n buf.new) }
    ensures bytes { FilledFrom (R.remaining from.old) (R.remaining from.new) result buf.new }
{
    let mut n = 0;
    while n < buf.len() {
        let more = from.read(&mut buf[n..])?;
        if more == 0 {
            break;
        }
        n += more;
    }
    Ok(n)
}

fn open(rt: &HostRuntime, name: &[u8]) -> Result<File, Error> {
    let path = str::from_utf8(name).map_err(|_| Error::from_raw_os_error(EILSEQ))?;
    File::open(rt, path)
}

fn read_file(rt: &HostRuntime, name: &[u8], buf: &mut [u8]) -> Result<usize, Error>
    ensures { IfOk result (λ n. IsPrefixLen n buf.new) }
{
    fill(&mut open(rt, name)?, buf)
}

fn read_standard_input(program: &Program, buf: &mut [u8]) -> Result<usize, Error>
    ensures { IfOk result (λ n. IsPrefixLen n buf.new) }
{
    program.told(
        &[b"read standard input"],
        fill(&mut program.rt.stdin(), buf),
    )
}

fn read_named(program: &Program, name: &[u8], buf: &mut [u8]) -> Result<usize, Error>
    ensures { IfOk result (λ n. IsPrefixLen n buf.new) }
{
    if name == b"-".as_slice() {
        return read_standard_input(program, buf);
    }
    program.told(&[b"read ", name], read_file(program.rt, name, buf))
}

// Where it is copied to, an argument that is too long for a path is too long as well.
fn read_argument(program: &Program, buf: &mut [u8]) -> Result<usize, Error>
    ensures { IfOk result (λ n. IsPrefixLen n buf.new) }
{
    let mut space = io::buffer();
    match program.rt.arg(1, &mut space) {
        Ok(len) => read_named(program, &space[..len], buf),
        Err(FillError::NotPresent) => read_standard_input(program, buf),
        Err(FillError::TooLong) => program.told(
            &[b"read the file named"],
            Err(Error::from_raw_os_error(ENAMETOOLONG)),
        ),
    }
}

// Fills buf as far as the input goes. There is no number where the input cannot be had. A number, and not the part of buf: by it
// callers see whether buf is full, so that there may be more (`Limit`).
pub fn read(program: &Program, buf: &mut [u8]) -> Option<usize>
    ensures { IfSome result (λ n. IsPrefixLen n buf.new) }
{
    if !matches!(program.rt.arg(2, &mut []), Err(FillError::NotPresent)) {
        let _ = program.rt.stderr().write_all(program.name);
        let _ = program.rt.eprintln(": cannot take more than one file");
        return None;
    }
    read_argument(program, buf).ok()
}
