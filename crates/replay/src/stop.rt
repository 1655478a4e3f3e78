// Why a replay ends before its time.
use output::Why;
use std::{fmt, io};

#[derive(Clone, Copy)]
pub(crate) enum Stop {
    Cut(usize),
    More(usize),
    Unwritten(io::Error),
}

impl fmt::Display for Stop {
    fn fmt<W: fmt::Write>(&self, f: &mut fmt::Formatter<W>) -> fmt::Result {
        match self {
            Stop::Cut(at) => write!(f, "refused at {at}: what begins there is cut short"),
            Stop::More(at) => write!(f, "refused at {at}: more than the parts that are said"),
            Stop::Unwritten(e) => write!(f, "cannot write: {}", Why(*e)),
        }
    }
}
