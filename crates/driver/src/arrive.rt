// How a driver reads a frame off a line: five bytes, as many more as they say, and one parse.
ghost use Rattle.std.specs.Prelude.{◌≡◌, ◌+◌, ◌-◌, ◌≤◌, length, take, IfOk};
ghost use Rattle.packet_head.specs.Numbers.{HEADER_LEN};
ghost use Rattle.packet_parse.specs.Driver.{wanted_of};
ghost use Rattle.driver.specs.Arrives.{Arrives, Fills};

use packet_head::HEADER_LEN;
use packet_parse::{ParsedPacket, head, parse};
use refusal::Refusal;
use std::io::{Error, Read};

// How many bytes of a frame this driver can hold. LEN goes up to 65,535; one above this is the driver's own to refuse.
pub(crate) const ROOM: usize = 1440;

// What came of the next frame: how many bytes, and the parse of them. `Read`: as many as are wanted. `Cut`: fewer, since the line ended;
// none where it ended between frames.
#[derive(Clone, Copy)]
pub(crate) enum Arrival {
    Read {
        answer: Result<ParsedPacket, Refusal>,
        len: usize,
    },
    Cut {
        answer: Result<ParsedPacket, Refusal>,
        len: usize,
    },
}

// Why no frame can be taken: more is wanted than the room holds, or a read failed. One that a signal breaks off has failed: to try it
// again, as often as that comes, would not end.
#[derive(Clone, Copy)]
pub(crate) enum Trouble {
    TooLong(usize),
    Io(Error),
}

impl From<Error> for Trouble {
    ghost use Rattle.driver.specs.declared.arrive.Trouble.{Trouble};

    ghost from_gives = { λ e t. t ≡ Trouble.Io e };

    fn from(e: Error) -> Trouble {
        Trouble::Io(e)
    }
}

// How many bytes of a part of the room are there: as many as it has, or fewer, since the line ended.
#[derive(Clone, Copy)]
enum There {
    All(usize),
    Ended(usize),
}

// Reads a part of the room full, as far as the line goes, and says which of the two it was: callers do not count, so who lends too short
// a part does not take an open line for one that ended. A loop of its own: `fill` of `input` answers a number alone.
fn fill_part<L: Read>(line: &mut L, part: &mut [u8]) -> Result<There, Error>
    ensures { IfOk result (Fills (length part.old)) }
{
    let mut n = 0;
    while n < part.len() {
        let more = line.read(&mut part[n..])?;
        if more == 0 {
            return Ok(There::Ended(n));
        }
        n += more;
    }
    Ok(There::All(n))
}

// The rest of a frame whose first five bytes are there and say its length, and the parse.
fn rest_from<L: Read>(line: &mut L, room: &mut [u8], len: usize) -> Result<Arrival, Trouble>
    requires header_len_in_bounds { HEADER_LEN ≤ length room.old }
    requires room_value { wanted_of (take HEADER_LEN room.old) ≡ HEADER_LEN + (len - HEADER_LEN) }
    ensures { Arrives room.new result }
{
    let wanted = HEADER_LEN + len.saturating_sub(HEADER_LEN);
    if room.len() < wanted {
        return Err(Trouble::TooLong(len));
    }
    match fill_part(line, &mut room[HEADER_LEN..wanted])? {
        There::All(rest) => {
            let all = HEADER_LEN + rest;
            let answer = parse(&room[..all]);
            Ok(Arrival::Read { answer, len: all })
        }
        There::Ended(rest) => {
            let came = HEADER_LEN + rest;
            let answer = parse(&room[..came]);
            Ok(Arrival::Cut { answer, len: came })
        }
    }
}

// The next frame of a line, read into room.
#[tactic(auto, using(crate::proofs::Room::no_wanted))]
pub(crate) fn frame_from<L: Read>(line: &mut L, room: &mut [u8]) -> Result<Arrival, Trouble>
    ensures { Arrives room.new result }
{
    if room.len() < HEADER_LEN {
        return Err(Trouble::TooLong(HEADER_LEN));
    }
    match fill_part(line, &mut room[..HEADER_LEN])? {
        There::All(five) => match head(&room[..five]) {
            Ok(h) => rest_from(line, room, h.len),
            Err(e) => Ok(Arrival::Read {
                answer: Err(e),
                len: five,
            }),
        },
        There::Ended(few) => Ok(Arrival::Cut {
            answer: parse(&room[..few]),
            len: few,
        }),
    }
}
