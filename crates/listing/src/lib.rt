// Lists the frames of a capture on standard output; a refusal, and a write that fails, are also said on standard error (docs/RULES.md, 11).
#![tactic(auto)]

mod reason;

ghost use Rattle.std.specs.Prelude.{◌≡◌, drop, take};
ghost use Rattle.output.specs.Kept.{KeepsFailure};
ghost use Rattle.packet_parse.specs.Frame.{parse_of, parsed};
ghost use Rattle.listing.specs.Listed.{listed};

use input::Limit;
use output::{Program, Writer};
use packet_parse::{ParsedPacket, parse};
use reason::Reason;
use refusal::Refusal;
use std::io;

// A listing's first line.
pub const TITLE: [u8; 26] = *b"at len addr sqn code data\n";

// This and the calls below are no `Display`: `KeepsFailure` is promised of each call of a writer.
fn put_title(to: &mut Writer) -> io::Result<()>
    ensures { KeepsFailure to.old.so_far to.new.so_far result }
{
    to.put(&TITLE)
}

// A frame's line. The place goes beside the writer, here and where it is handed on: it is the frame's, and changes with each.
pub fn put_frame(to: &mut Writer, at: usize, p: ParsedPacket) -> io::Result<()>
    ensures { KeepsFailure to.old.so_far to.new.so_far result }
{
    let addr = p.addr.as_byte();
    let sqn = p.ctrl.sqn.value();
    let line = format_args!("{at} {} {addr} {sqn} {} {}\n", p.len, p.code, p.data_len);
    to.put_number(b"", line)
}

fn say_refused(program: &Program, at: usize, e: Refusal) {
    let number = e.number();
    let why = Reason(e);
    let _ = program.rt.stderr().write_all(program.name);
    let _ = eprintln!(program.rt; ": refused at {at} by {number}: {why}");
}

// A refusal: the last line of the program's listing, and in words on standard error, whether that line was written or not.
pub fn put_refusal(to: &mut Writer, at: usize, e: Refusal) -> io::Result<()>
    ensures { KeepsFailure to.old.so_far to.new.so_far result }
{
    let number = e.number();
    let wrote = to.put_number(b"", format_args!("{at} refused {number}\n"));
    say_refused(&to.program, at, e);
    wrote
}

// The frame at a place of a capture. A refusal is the last line of the program's listing, and is said in words; by a copy of the writer,
// so that the caller's stays, whatever came of that line.
pub fn frame_at(to: &Writer, capture: &[u8], at: usize) -> Result<ParsedPacket, Refusal>
    ensures { parsed result ≡ parse_of (drop at capture.now) }
{
    let frame = parse(capture.get(at..).unwrap_or(&[]));
    if let Err(e) = frame {
        let mut last = *to;
        let _ = put_refusal(&mut last, at, e);
    }
    frame
}

fn framelist(rt: &HostRuntime) -> Program<'_> {
    Program {
        rt,
        name: b"framelist",
    }
}

// Answers how many bytes were frames, up to the end or the first refusal. A write that fails does not end it.
pub fn list(rt: &HostRuntime, capture: &[u8]) -> usize
    ensures { result ≡ listed capture.now }
{
    let mut to = Writer {
        program: framelist(rt),
        so_far: Ok(()),
    };
    let _ = put_title(&mut to);
    let mut at = 0;
    // No `for`: where the next frame begins, the one that is read tells.
    while at < capture.len() {
        let Ok(p) = frame_at(&to, capture, at) else {
            return at;
        };
        let _ = put_frame(&mut to, at, p);
        at += p.len;
    }
    at
}

// The program framelist, once so many bytes of an input stand in room: the same of them, and where the room is full, that there may be
// more is said.
pub fn list_read(rt: &HostRuntime, room: &[u8], read: usize) -> usize
    ensures { result ≡ listed (take read room.now) }
{
    let passed = list(rt, room.get(..read).unwrap_or(room));
    if read == room.len() {
        let limit = Limit(read);
        let _ = eprintln!(rt; "framelist: {limit}");
    }
    passed
}
