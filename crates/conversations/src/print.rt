// What the program writes.
use packet_parse::ParsedPacket;
use refusal::Refusal;

pub(crate) fn put(rt: &HostRuntime, text: &str) {
    let _ = rt.print(text);
}

pub(crate) fn put_refused(rt: &HostRuntime, e: Refusal) {
    let _ = print!(rt; " refused {}", e.number());
}

// Tells whether a call was done, and hands on what it answers.
pub(crate) fn told<T>(rt: &HostRuntime, answer: Result<T, Refusal>) -> Result<T, Refusal> {
    match &answer {
        Ok(_) => put(rt, " done"),
        Err(e) => put_refused(rt, *e),
    }
    answer
}

// Where the bytes end that all may read and that must agree: at the encrypted data, or at the MAC, as reading the frame tells it.
fn open_end(p: ParsedPacket) -> usize {
    match p.block {
        None => 0,
        Some(block) if block.ty.is_encrypted() => p.data_start,
        Some(_) => packet_parse::mac_start(p.mac),
    }
}

// The open bytes of a frame, in decimal.
pub(crate) fn put_open(rt: &HostRuntime, frame: &[u8]) {
    match packet_parse::parse(frame) {
        Ok(p) => {
            for byte in frame.iter().take(open_end(p)) {
                let _ = print!(rt; " {byte}");
            }
        }
        Err(e) => put_refused(rt, e),
    }
}
