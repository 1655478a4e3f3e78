// What a program says: on standard output piece by piece, and on standard error what it cannot do.
#![tactic(auto)]

mod why;

ghost use Rattle.std.specs.Prelude.{◌≡◌};
ghost use Rattle.output.specs.Kept.{KeepsFailure};

use std::fmt::Display;
use std::io;
pub use why::Why;

const DIGITS: [u8; 16] = *b"0123456789ABCDEF";

// Who speaks: the runtime, and the program's name.
#[derive(Clone, Copy)]
pub struct Program<'a> {
    pub rt: &'a HostRuntime,
    pub name: &'a [u8],
}

impl Program<'_> {
    pub fn told<T>(&self, what: &[&[u8]], outcome: io::Result<T>) -> io::Result<T>
        ensures { result ≡ outcome }
    {
        outcome.inspect_err(|e| self.say_cannot(what, *e))
    }

    fn say_cannot(&self, what: &[&[u8]], why: io::Error) {
        let stderr = self.rt.stderr();
        let _ = stderr.write_all(self.name);
        let _ = stderr.write_all(b": cannot ");
        for part in what {
            let _ = stderr.write_all(*part);
        }
        let _ = stderr.write_all(b": ");
        let _ = stderr.println(Why(why));
    }
}

// What prints on standard output. Why a write failed is said at once; after it nothing more is written, and each call answers it again.
// It is made with braces: a call for it would say no more than `so_far: Ok(())`.
#[derive(Clone, Copy)]
pub struct Writer<'a> {
    pub program: Program<'a>,
    pub so_far: io::Result<()>,
}

// Calls, and no `Display` of what is put; and the same fact at each: `KeepsFailure` is promised of each, and an edit breaks it.
impl Writer<'_> {
    fn write<F: FnOnce(&HostRuntime) -> io::Result<()>>(&mut self, write: F) -> io::Result<()>
        requires { F.IsAlwaysCallable write }
        ensures { KeepsFailure self.old.so_far self.new.so_far result }
    {
        self.so_far?;
        if let Err(e) = write(self.program.rt) {
            self.so_far = self.program.told(&[b"write"], Err(e));
        }
        self.so_far
    }

    pub fn put(&mut self, text: &[u8]) -> io::Result<()>
        ensures { KeepsFailure self.old.so_far self.new.so_far result }
    {
        self.write(|rt| rt.stdout().write_all(text))
    }

    fn print<D: Display + Drop>(&mut self, text: D) -> io::Result<()>
        ensures { KeepsFailure self.old.so_far self.new.so_far result }
    {
        self.write(|rt| rt.print(text))
    }

    // What a number is, and the number in decimal; or several, in one write, by `format_args!`, which has their names too, so that nothing
    // stands in front: that costs no write.
    pub fn put_number<D: Display + Drop>(&mut self, name: &[u8], n: D) -> io::Result<()>
        ensures { KeepsFailure self.old.so_far self.new.so_far result }
    {
        if !name.is_empty() {
            self.put(name)?;
        }
        self.print(n)
    }

    // A byte as it stands on the line: a space and two digits. By hand: tried by `{b:02X}`, and a listing of long bodies took 1.8 times
    // as long (docs/DESIGN-PASS.md).
    pub fn put_byte(&mut self, b: u8) -> io::Result<()>
        ensures { KeepsFailure self.old.so_far self.new.so_far result }
    {
        self.put(&[
            b' ',
            DIGITS[usize::from(b / 16)],
            DIGITS[usize::from(b % 16)],
        ])
    }

    pub fn put_bytes(&mut self, bytes: &[u8]) -> io::Result<()>
        ensures { KeepsFailure self.old.so_far self.new.so_far result }
    {
        for b in bytes {
            self.put_byte(*b)?;
        }
        self.so_far
    }
}
