// Lists the frames of a file or of standard input: at most 65,536 bytes of it, up to the end or the first refusal.
// It reads for itself, as framelist_mixed does: a call that read for both could be promised no one answer (docs/DECISIONS.md).
#![tactic(auto)]

use output::Program;

fn main(rt: HostRuntime) {
    let program = Program {
        rt: &rt,
        name: b"framelist",
    };
    let mut buf = io::large_buffer();
    if let Some(read) = input::read(&program, &mut buf) {
        listing::list_read(&rt, &buf, read);
    }
}
