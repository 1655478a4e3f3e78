// Sealing a frame, unsealing one, and the test of where a payload stands.
ghost use Rattle.std.specs.Prelude.{◌≡◌};
ghost use Rattle.secure_unseal.specs.Lookup.{shown_test};
ghost use Rattle.crossing.specs.Answers.{c_yes};
ghost use Rattle.ffi.specs.Sealing.{seal_arg, unseal_arg};

use crossing::{CAnswer, CSealed, CSession, CToSeal, CUnsealed};

// The frame into out; the answer is how many bytes it has.
#[unsafe(no_mangle)]
pub extern "C" fn malstrink_seal(s: CSession, p: CToSeal, data: &[u8], out: &mut [u8]) -> CSealed
    ensures value { result ≡ (seal_arg s p «data».now out.old).told }
    ensures out_after { out.new ≡ (seal_arg s p «data».now out.old).out }
{
    ffi::malstrink_seal(s, p, data, out)
}

// An encrypted payload is laid into work.
#[unsafe(no_mangle)]
pub extern "C" fn malstrink_unseal(s: CSession, frame: &[u8], work: &mut [u8]) -> CUnsealed
    ensures value { result ≡ (unseal_arg s frame.now work.old).told }
    ensures work_after { work.new ≡ (unseal_arg s frame.now work.old).work }
{
    ffi::malstrink_unseal(s, frame, work)
}

#[unsafe(no_mangle)]
pub extern "C" fn malstrink_payload_test(
    frame: &[u8],
    work: &[u8],
    in_work: bool,
    start: usize,
    len: usize,
) -> CAnswer
    ensures { result ≡ c_yes (shown_test in_work start len frame.now work.now) }
{
    ffi::malstrink_payload_test(frame, work, in_work, start, len)
}
