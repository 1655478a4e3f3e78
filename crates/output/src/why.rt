// Why a call on a file failed, in the system's words alone: the text of the error without the number that std puts behind it.
use std::fmt::Write;
use std::{fmt, io};

#[derive(Clone, Copy)]
pub struct Why(pub io::Error);

// Passes text on up to that number, and then to nobody.
#[derive(Drop)]
struct Words<'a, W> {
    to: Option<&'a mut fmt::Formatter<W>>,
}

impl<W: fmt::Write> fmt::Write for Words<'_, W> {
    fn write_str(&mut self, s: &str) -> fmt::Result {
        if s.starts_with(" (os error ") {
            self.to = None;
        }
        match &mut self.to {
            Some(to) => to.write_str(s),
            None => Ok(()),
        }
    }
}

impl fmt::Display for Why {
    fn fmt<W: fmt::Write>(&self, f: &mut fmt::Formatter<W>) -> fmt::Result {
        let mut words = Words { to: Some(f) };
        write!(words, "{}", self.0)
    }
}
