// The session's calls that are lent no buffer. Why the numbers stand, main.rt says.
use super::Case;
use super::given::Given;
use crossing::{CAnswer, CSession, CStepped};

fn verified(session: CSession, mut given: Given) -> CStepped {
    let mac = given.next();
    ffi::malstrink_session_verify(session, given.rest(), mac)
}

// Which slice, start, length, the frame's length; then frame and work buffer.
fn payload_tested(mut given: Given) -> CAnswer {
    let in_work = given.next();
    let start = given.next();
    let len = given.next();
    let frame_len = given.len();
    let frame = given.part(frame_len);
    ffi::malstrink_payload_test(frame, given.rest(), in_work, start, len)
}

// The session, then what the call is handed.
fn on_session(op: u8, case: Case) -> bool {
    let Case { mut given, wanted } = case;
    let session = given.next();
    match op {
        30 => wanted.is(ffi::malstrink_session_wipe(session)),
        31 => wanted.is(ffi::malstrink_session_challenge(session, given.next())),
        32 => wanted.is(ffi::malstrink_session_receive_ccrypt(
            session,
            given.next(),
            given.next(),
            given.next(),
        )),
        33 => wanted.is(ffi::malstrink_session_server_cryptogram(session)),
        34 => wanted.is(ffi::malstrink_session_initial_rmac(session)),
        36 => wanted.is(ffi::malstrink_session_receive_challenge(
            session,
            given.next(),
            given.next(),
        )),
        37 => wanted.is(ffi::malstrink_session_receive_scrypt(session, given.next())),
        38 => wanted.is(ffi::malstrink_session_mac(session, given.rest())),
        39 => wanted.is(verified(session, given)),
        40 => wanted.is(ffi::malstrink_session_keys(session)),
        41 => wanted.is(ffi::malstrink_session_last_other_mac(session)),
        _ => wanted.is(ffi::malstrink_session_confirm_rmac_i(session, given.next())),
    }
}

pub(crate) fn agrees(op: u8, case: Case) -> bool {
    let Case { mut given, wanted } = case;
    match op {
        28 => wanted.is(ffi::malstrink_session_new(given.next())),
        29 => wanted.is(ffi::malstrink_session_new_reader(given.next(), given.next())),
        46 => wanted.is(payload_tested(given)),
        _ => on_session(op, case),
    }
}
