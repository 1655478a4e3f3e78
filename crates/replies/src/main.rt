// Lists the replies in the clear of a file or of standard input: at most 65,536 bytes of it, up to the end or the first refused frame.
#![tactic(auto)]

use input::Limit;
use output::Program;
use reply_listing::Tally;

// How many bodies have no reading, and how many replies no line: one who lists a sealed capture is not to take it for an empty one.
fn say_counts(rt: &HostRuntime, t: Tally) {
    let Tally {
        bytes: _,
        replies,
        refused,
        sealed,
    } = t;
    if 0 < refused {
        let _ = eprintln!(rt;
            "replies: refused {refused} of {replies} bodies by 19: the bytes do not fit the code, or the code is not listed"
        );
    }
    if 0 < sealed {
        let _ = eprintln!(rt; "replies: sealed replies passed over: {sealed}");
    }
}

fn main(rt: HostRuntime) {
    let program = Program {
        rt: &rt,
        name: b"replies",
    };
    let mut buf = io::large_buffer();
    let Some(read) = input::read(&program, &mut buf) else {
        return;
    };
    say_counts(&rt, reply_listing::list(&rt, &buf[..read]));
    // As `listing` has it for framelist: one call for both would save a line.
    if read == buf.len() {
        let limit = Limit(read);
        let _ = eprintln!(rt; "replies: {limit}");
    }
}
