// Conversations that agree on all that stands open on the line, and differ in keys, random numbers, encrypted contents, buffers, and in
// what their ends went through before. Every frame goes by `channel::carry` or `channel::transfer`, whose promises are the definitions
// that the theorem of crate `channel` is over. Each sealed frame is told by its length, its open bytes and its cipher calls, so the
// listings are the same: what the theorem says, seen to happen. One frame of each finds no room at its sender, which the theorem leaves
// out (`SendFits.room`): it is refused, nothing moves, and the theorem is on the conversation without it.
#![tactic(auto)]

mod print;
mod shake;

use channel::{ToTransfer, Transferred};
use packet_head::{Address, Sqn};
use print::{put, put_open, put_refused, told};
use refusal::Refusal;
use secure_session::{End, Session};
use shake::{Line, Numbers, shake};

// Both ends of a conversation.
#[derive(Clone, Copy)]
pub(crate) struct Ends {
    pub controller: Session,
    pub reader: Session,
}

impl Ends {
    fn fresh(scbk: [u8; 16]) -> Ends {
        Ends {
            controller: Session::new(scbk),
            reader: Session::new_reader(scbk, *b"cabinet7"),
        }
    }

    fn wipe(self) -> Ends {
        Ends {
            controller: self.controller.wipe(),
            reader: self.reader.wipe(),
        }
    }
}

// The reader's frames have the reply flag on its address.
fn asks(who: End, sqn: u8, encrypt: bool, code: u8) -> Result<ToTransfer, Refusal> {
    let addr = match who {
        End::Controller => 0x05,
        End::Reader => 0x85,
    };
    Ok(ToTransfer {
        who,
        addr: Address::from_raw(addr),
        sqn: Sqn::new(sqn)?,
        encrypt,
        code,
    })
}

// The buffers that are lent to sealing and unsealing. They hold something else before.
#[derive(Drop)]
struct Lent<'a> {
    out: &'a mut [u8],
    work: &'a mut [u8],
}

// The frame on the line, as all can read it, and how often sealing called the cipher.
fn tell_sealed(rt: &HostRuntime, t: Transferred, frame: &[u8]) {
    match t.sealed {
        Ok(len) => {
            let _ = print!(rt; "{len} bytes, open:");
            put_open(rt, frame);
            let _ = print!(rt; ", sealed by {} calls", t.seal_calls);
        }
        Err(e) => {
            put(rt, "sealed:");
            put_refused(rt, e);
        }
    }
}

// What came of a frame at either end, and whether the payload is the one that was sent.
fn tell(rt: &HostRuntime, t: Transferred, payload: &[u8], out: &[u8], work: &[u8]) {
    let frame = channel::on_line(out, t.sealed);
    tell_sealed(rt, t, frame);
    match t.opened {
        Ok(place) => {
            let same = secure_unseal::payload(frame, work, place) == payload;
            let said = if same { "yes" } else { "no" };
            let _ = print!(rt; ", opened by {} calls, as sent: {said}", t.open_calls);
        }
        Err(e) => {
            put(rt, ", opened:");
            put_refused(rt, e);
        }
    }
    put(rt, "\n");
}

// One sealed frame from one end to the other, told.
fn send(rt: &HostRuntime, ends: Ends, asked: ToTransfer, payload: &[u8], lent: &mut Lent) -> Ends {
    let (from, to) = match asked.who {
        End::Controller => (ends.controller, ends.reader),
        End::Reader => (ends.reader, ends.controller),
    };
    let out = &mut *lent.out;
    let work = &mut *lent.work;
    let t = channel::transfer(from, to, asked, payload, out, work);
    tell(rt, t, payload, out, work);
    let (controller, reader) = match asked.who {
        End::Controller => (t.from, t.to),
        End::Reader => (t.to, t.from),
    };
    Ends { controller, reader }
}

// Each end sends twice in a row. The last frame but one finds no room at its sender: nothing goes over the line, and all goes on.
fn talk(
    rt: &HostRuntime,
    ends: Ends,
    lamp: &[u8],
    badge: &[u8],
    lent: &mut Lent,
) -> Result<Ends, Refusal> {
    let poll = asks(End::Controller, 1, false, 0x60)?;
    let lit = asks(End::Controller, 2, true, 0x69)?;
    let status = asks(End::Reader, 2, false, 0x48)?;
    let card = asks(End::Reader, 2, true, 0x50)?;
    let lost = asks(End::Controller, 3, false, 0x60)?;
    let last = asks(End::Controller, 3, true, 0x60)?;
    let ends = send(rt, ends, poll, b"", lent);
    let ends = send(rt, ends, lit, lamp, lent);
    let ends = send(rt, ends, status, b"\x00\x01 closed", lent);
    let ends = send(rt, ends, card, badge, lent);
    let mut too_little = Lent {
        out: &mut [0xEE; 13],
        work: &mut *lent.work,
    };
    let ends = send(rt, ends, lost, b"", &mut too_little);
    Ok(send(rt, ends, last, b"", lent))
}

// Ends whose handshake has failed: a wrong cryptogram each.
fn failed(rt: &HostRuntime, ends: Ends) -> Ends {
    put(rt, "a handshake before:");
    let asked = ends.controller.challenge(*b"random.A");
    let met = ends.reader.receive_challenge(*b"random.A", *b"random.B");
    let known = asked
        .session
        .receive_ccrypt(*b"cabinet7", *b"random.B", [0; 16]);
    let last = met.session.receive_scrypt([0; 16]);
    let _ = told(rt, known.answer);
    let _ = told(rt, last.answer);
    put(rt, "\n");
    Ends {
        controller: known.session,
        reader: last.session,
    }
}

// Fresh ends, and buffers just long enough for the largest frame and for the longest encrypted data.
// Three functions, since the buffers' lengths differ. Const parameters for these were tried: an array of such a length
// owes, at each function, that it is below 2^63.
fn first(rt: &HostRuntime) -> Result<Ends, Refusal> {
    put(rt, "conversation 1\n");
    let numbers = Numbers {
        rnd_a: *b"random.A",
        rnd_b: *b"random.B",
        cuid: *b"cabinet7",
    };
    let ends = Ends::fresh(*b"key of cabinet 7");
    let mut line = Line {
        rt,
        crc: true,
        out: &mut [0xEE; 43],
    };
    let ends = shake(&mut line, ends, numbers)?;
    let mut lent = Lent {
        out: &mut [0xEE; 46],
        work: &mut [0xDD; 32],
    };
    talk(rt, ends, b"a red lamp, 3 s", b"badge 00112233 A", &mut lent)
}

// Another key, after a handshake that failed, and longer buffers; the handshake's frames have a checksum.
fn second(rt: &HostRuntime) -> Result<Ends, Refusal> {
    put(rt, "conversation 2\n");
    let numbers = Numbers {
        rnd_a: *b"12345678",
        rnd_b: *b"87654321",
        cuid: *b"cabinet7",
    };
    let ends = failed(rt, Ends::fresh(*b"another key here"));
    let mut line = Line {
        rt,
        crc: false,
        out: &mut [0xEE; 99],
    };
    let ends = shake(&mut line, ends, numbers)?;
    let mut lent = Lent {
        out: &mut [0xEE; 99],
        work: &mut [0xDD; 48],
    };
    talk(rt, ends, b"green, 10 times", b"badge 99887766 Z", &mut lent)
}

// The ends of the second, wiped: their key is zeros, and so is the reader's cUID. The buffers are much longer.
fn third(rt: &HostRuntime, used: Ends) -> Result<Ends, Refusal> {
    put(rt, "conversation 3\n");
    let numbers = Numbers {
        rnd_a: *b"01234567",
        rnd_b: *b"abcdefgh",
        cuid: [0; 8],
    };
    let mut line = Line {
        rt,
        crc: true,
        out: &mut [0xEE; 1440],
    };
    let ends = shake(&mut line, used.wipe(), numbers)?;
    let mut lent = Lent {
        out: &mut [0xEE; 1440],
        work: &mut [0xDD; 1440],
    };
    talk(rt, ends, b"off for an hour", b"badge 31415926 P", &mut lent)
}

fn all(rt: &HostRuntime) -> Result<Ends, Refusal> {
    first(rt)?;
    let used = second(rt)?;
    third(rt, used)
}

// None of the calls that have to be done is refused.
fn main(rt: HostRuntime) {
    if let Err(e) = all(&rt) {
        put_refused(&rt, e);
        put(&rt, "\n");
    }
}
