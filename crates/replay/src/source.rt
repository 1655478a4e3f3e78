// The input, read from the front on. Where fewer bytes are left than are asked for there is nothing to read.
ghost use Rattle.std.specs.Prelude.{◌≤◌, length};

use super::Case;
use super::given::Given;
use super::wanted::Wanted;

// A place beside the bytes, and not what is left of them: a stop says at which byte of the input it came.
#[derive(Drop)]
pub(crate) struct Source<'a> {
    pub bytes: &'a [u8],
    pub at: usize,
    ghost within: { at ≤ length bytes.now },
}

// What a part begins with.
#[derive(Clone, Copy)]
pub(crate) struct Head<'a> {
    pub op: u8,
    pub count: u16,
    pub name: &'a [u8],
}

impl<'a> Source<'a> {
    pub(crate) fn new(bytes: &'a [u8]) -> Self {
        Source { bytes, at: 0 }
    }

    pub(crate) fn is_at_end(&self) -> bool {
        self.at == self.bytes.len()
    }

    fn take(&mut self, len: usize) -> Option<&'a [u8]> {
        let taken = self.bytes[self.at..].get(..len)?;
        self.at += len;
        Some(taken)
    }

    fn byte(&mut self) -> Option<u8> {
        self.take(1)?.first().copied()
    }

    // A number of two bytes, the low one first.
    pub(crate) fn short(&mut self) -> Option<u16> {
        let bytes = self.take(2)?.try_into().ok()?;
        Some(u16::from_le_bytes(bytes))
    }

    // The name's length is the last byte before it.
    pub(crate) fn head(&mut self) -> Option<Head<'a>> {
        let op = self.byte()?;
        let count = self.short()?;
        let len = usize::from(self.byte()?);
        let name = self.take(len)?;
        Some(Head { op, count, name })
    }

    // A case is two lengths, and that many bytes each.
    pub(crate) fn case(&mut self) -> Option<Case<'a>> {
        let given = usize::from(self.short()?);
        let wanted = usize::from(self.short()?);
        Some(Case {
            given: Given::new(self.take(given)?),
            wanted: Wanted::new(self.take(wanted)?),
        })
    }
}
