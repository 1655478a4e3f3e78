// The same as framelist, once more so that the tests can hand it a file: sealed frames, one with a checksum, a refusal with frames after it.
// Its lines are framelist's: see there.
#![tactic(auto)]

use output::Program;

fn main(rt: HostRuntime) {
    let program = Program {
        rt: &rt,
        name: b"framelist",
    };
    let mut buf = io::large_buffer();
    if let Some(read) = input::read(&program, &mut buf) {
        listing::list_read(&rt, &buf, read);
    }
}
