// From frame to frame of a capture.
ghost use Rattle.std.specs.Prelude.{◌≡◌};
ghost use Rattle.listing.specs.Listed.{frames_in};
ghost use Rattle.reply_listing.specs.Tallied.{tally_of};

use super::carried::reply_in;
use super::counting::Tally;
use super::words::put_reply;
use listing::frame_at;
use output::{Program, Writer};

// Lists, and answers what was passed, up to the end or the first refused frame. A write that fails does not end it.
pub fn list(rt: &HostRuntime, capture: &[u8]) -> Tally
    ensures { result ≡ tally_of (frames_in capture.now) }
{
    let program = Program {
        rt,
        name: b"replies",
    };
    let mut to = Writer {
        program,
        so_far: Ok(()),
    };
    let _ = to.put(b"at addr reply\n");
    let mut t = Tally::default();
    // No `for`: where the next frame begins, the one that is read tells.
    while t.bytes < capture.len() {
        let at = t.bytes;
        let Ok(p) = frame_at(&to, capture, at) else {
            return t;
        };
        let payload = slices::part(capture, at + p.data_start, p.data_len);
        let reply = reply_in(p, payload);
        let _ = put_reply(&mut to, at, p, payload, reply);
        t.count(p.len, reply);
    }
    t
}
