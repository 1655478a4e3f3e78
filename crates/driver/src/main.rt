// Lists the frames that come in on standard input, each as soon as it is there, up to the line's end or the first refusal. It shows how
// a driver reads a line (docs/RULES.md, 3.7 and 15).
#![tactic(auto)]

mod arrive;

ghost use Rattle.std.specs.Prelude.{◌≤◌, length, IfSome};

use arrive::{Arrival, ROOM, Trouble, frame_from};
use output::{Program, Writer};
use packet_parse::ParsedPacket;
use refusal::Refusal;
use std::env::{Env, FillError};
use std::io::Read;

// Where it stops, without a word, so that it ends on a line that does not: at 115,200 baud after twelve million years.
const LONGEST: usize = 0x4000_0000_0000_0000;

// Lists what was read. After a refusal, and after a write that failed, there is no more to list.
fn put_read(to: &mut Writer, at: usize, answer: Result<ParsedPacket, Refusal>) -> Option<()> {
    match answer {
        Ok(p) => listing::put_frame(to, at, p).ok(),
        Err(e) => {
            let _ = listing::put_refusal(to, at, e);
            None
        }
    }
}

// Lists the next frame, and answers how long it is, unless the listing ends with it.
#[tactic(auto, using(crate::proofs::Room::read_within))]
fn list_next<L: Read>(to: &mut Writer, line: &mut L, room: &mut [u8], at: usize) -> Option<usize>
    ensures { IfSome result (λ len. (5 ≤ len) × (len ≤ length room.new)) }
{
    match frame_from(line, room) {
        Ok(Arrival::Read { answer, len }) => {
            put_read(to, at, answer)?;
            Some(len)
        }
        Ok(Arrival::Cut { answer, len }) => {
            if 0 < len {
                put_read(to, at, answer);
            }
            None
        }
        Err(Trouble::TooLong(len)) => {
            let _ = eprintln!(to.program.rt;
                "driver: cannot hold the {len} bytes of the frame at {at}, only {ROOM}"
            );
            None
        }
        Err(Trouble::Io(e)) => to.program.told(&[b"read"], Err(e)).ok(),
    }
}

fn list<L: Read>(to: &mut Writer, line: &mut L) {
    let mut room = [0u8; ROOM];
    let mut at = 0;
    // No `for`: it is bytes that end it (docs/RULES.md, 15.2), and a turn takes as many as the frame has.
    while at < LONGEST {
        let Some(len) = list_next(to, line, &mut room, at) else {
            return;
        };
        at += len;
    }
}

fn main(rt: HostRuntime) {
    if !matches!(rt.arg(1, &mut []), Err(FillError::NotPresent)) {
        let _ = rt.eprintln("driver: cannot take arguments; it reads standard input");
        return;
    }
    let program = Program {
        rt: &rt,
        name: b"driver",
    };
    let mut to = Writer {
        program,
        so_far: Ok(()),
    };
    if to.put(&listing::TITLE).is_ok() {
        list(&mut to, &mut rt.stdin());
    }
}
