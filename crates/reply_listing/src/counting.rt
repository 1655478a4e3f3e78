// What a listing passed, in numbers.
ghost use Rattle.std.specs.Prelude.{◌≡◌, List, ℕ};

use super::carried::Reply;

// How many bytes were frames; how many frames had a reply in the clear, and how many of those a body that is refused; how many had a
// sealed reply.
#[derive(Clone, Copy, Default)]
pub struct Tally {
    pub bytes: usize,
    pub replies: usize,
    pub refused: usize,
    pub sealed: usize,
}

impl Tally {
    ghost use Rattle.reply_listing.specs.InClear.{reply_told};
    ghost use Rattle.reply_listing.specs.Tallied.{RoomFor, tally_more};

    // A frame of len bytes more, and what its reply counts for. The payload that it was read from makes no difference to that.
    pub(crate) fn count(&mut self, len: usize, reply: Reply)
        requires { RoomFor self.old len }
        ensures { (s : List ℕ) → self.new ≡ tally_more self.old len (reply_told reply s) }
    {
        self.bytes += len;
        match reply {
            Reply::NoReply => {}
            Reply::Sealed => self.sealed += 1,
            Reply::Clear(Ok(_)) => self.replies += 1,
            Reply::Clear(Err(_)) => {
                self.replies += 1;
                self.refused += 1;
            }
        }
    }
}
