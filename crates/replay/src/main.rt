// Asks the calls of the C interface the stored questions, and tells of each how many answers are the stored ones. The input says in two
// bytes, the low one first, how many parts follow. There is a part for each call, and one for each worked case of the paper: the call's
// number, with 128 added where it is lent a buffer, how many cases there are, their name; then the cases, each what the call is handed
// and the answer that the oracle gives (oracle/store writes them). Answers that differ, an input that is cut, also between two parts,
// and bytes after the last part are said on standard error too, in a line that begins `replay: refused `.
#![tactic(auto)]

ghost use Rattle.std.specs.Prelude.{◌≡◌, length};

mod ciphers;
mod frames;
mod given;
mod lent;
mod session;
mod sessions;
mod source;
mod stop;
mod wanted;

use given::Given;
use output::Program;
use source::{Head, Source};
use std::io;
use stop::Stop;
use wanted::Wanted;

// What a call is handed, and the answer that is wanted.
#[derive(Clone, Copy)]
pub(crate) struct Case<'a> {
    pub given: Given<'a>,
    pub wanted: Wanted<'a>,
}

// Whether the call's answer is the one wanted. A number that no call has is taken for that of a call of the same kind. The numbers are
// the input's, and each stands beside the call that it asks; names between the two would say every call twice.
fn agrees(op: u8, case: Case) -> bool {
    match op {
        0..=13 => frames::agrees(op, case),
        14..=27 => ciphers::agrees(op, case),
        28..=127 => sessions::agrees(op, case),
        128..=255 => lent::agrees(op - 128, case),
    }
}

// How many of a part's cases agree.
fn cases(source: &mut Source, head: Head) -> Result<u64, Stop> {
    let mut right: u64 = 0;
    for _ in 0..head.count {
        let at = source.at;
        let case = source.case().ok_or(Stop::Cut(at))?;
        right = right.saturating_add(u64::from(agrees(head.op, case)));
    }
    Ok(right)
}

fn put(rt: &HostRuntime, head: Head, right: u64) -> io::Result<()> {
    let of = head.count;
    rt.stdout().write_all(head.name)?;
    println!(rt; ": {right} of {of}")
}

fn tell(rt: &HostRuntime, head: Head, right: u64) -> Result<(), Stop> {
    put(rt, head, right).map_err(Stop::Unwritten)?;
    if right != u64::from(head.count) {
        let _ = eprint!(rt; "replay: refused by answers that differ: ");
        let _ = rt.stderr().write_all(head.name);
        let _ = eprintln!(rt);
    }
    Ok(())
}

fn part(rt: &HostRuntime, source: &mut Source) -> Result<(), Stop> {
    let at = source.at;
    let head = source.head().ok_or(Stop::Cut(at))?;
    let right = cases(source, head)?;
    tell(rt, head, right)
}

// As many parts as the first two bytes say, and nothing after them.
fn parts(rt: &HostRuntime, source: &mut Source) -> Result<(), Stop> {
    let count = source.short().ok_or(Stop::Cut(0))?;
    for _ in 0..count {
        part(rt, source)?;
    }
    if source.is_at_end() {
        Ok(())
    } else {
        Err(Stop::More(source.at))
    }
}

// Room for more than is stored; a function of its own, so that `main`'s proof sees the length and not the zeros.
fn space() -> [u8; 2097152]
    ensures { 2097152 ≡ length result }
{
    [0; 2097152]
}

fn main(rt: HostRuntime) {
    let mut buf = space();
    let program = Program {
        rt: &rt,
        name: b"replay",
    };
    let Some(n) = input::read(&program, &mut buf) else {
        return;
    };
    if n == buf.len() {
        let _ = eprintln!(rt; "replay: cannot take an input of 2097152 bytes or more");
        return;
    }
    if let Err(stop) = parts(&rt, &mut Source::new(&buf[..n])) {
        let _ = eprintln!(rt; "replay: {stop}");
    }
}
