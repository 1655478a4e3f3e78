// Sealing a frame, unsealing one, and the test of where a payload stands. Why a call is a match on what was read, session.rt says.
ghost use Rattle.std.specs.Prelude.{◌≡◌};
ghost use Rattle.refusal.specs.Paper.{refusal_of};
ghost use Rattle.secure_unseal.specs.Lookup.{shown_test};
ghost use Rattle.crossing.specs.Answers.{c_yes, c_refusal};
ghost use Rattle.crossing.specs.Sealing.{c_unsealed};
ghost use Rattle.ffi.specs.Sealing.{seal_arg, unseal_arg};

use crossing::{
    CAnswer, CSealed, CSession, CToSeal, CUnsealed, seal_asked, sealed_c, take, unsealed_c,
};
use refusal::Refusal;
use secure_unseal::PayloadPlace;

// What comes of a session that cannot be read.
#[cold]
#[inline(never)]
fn no_frame(s: CSession, e: Refusal) -> CSealed
    ensures { result ≡ record { answer = c_refusal e; calls = 0; session = s } }
{
    CSealed {
        answer: e.into(),
        calls: 0,
        session: s,
    }
}

#[cold]
#[inline(never)]
fn no_payload(s: CSession, e: Refusal) -> CUnsealed
    ensures { result ≡ c_unsealed (refusal_of e) 0 s }
{
    CUnsealed {
        answer: e.into(),
        in_work: false,
        start: 0,
        len: 0,
        calls: 0,
        session: s,
    }
}

// The frame into out; the answer is how many bytes it has.
#[tactic(auto, unfolding(crate::specs::Sealing::seal_arg, crate::specs::Sessions::reading))]
pub fn malstrink_seal(s: CSession, p: CToSeal, data: &[u8], out: &mut [u8]) -> CSealed
    ensures value { result ≡ (seal_arg s p «data».now out.old).told }
    ensures out_after { out.new ≡ (seal_arg s p «data».now out.old).out }
{
    match take(s) {
        Ok(x) => sealed_c(seal_asked(x, p, data, out)),
        Err(e) => no_frame(s, e),
    }
}

// An encrypted payload is laid into work.
#[tactic(auto, unfolding(crate::specs::Sealing::unseal_arg, crate::specs::Sessions::reading))]
pub fn malstrink_unseal(s: CSession, frame: &[u8], work: &mut [u8]) -> CUnsealed
    ensures value { result ≡ (unseal_arg s frame.now work.old).told }
    ensures work_after { work.new ≡ (unseal_arg s frame.now work.old).work }
{
    match take(s) {
        Ok(x) => unsealed_c(secure_unseal::unseal(x, frame, work)),
        Err(e) => no_payload(s, e),
    }
}

pub fn malstrink_payload_test(
    frame: &[u8],
    work: &[u8],
    in_work: bool,
    start: usize,
    len: usize,
) -> CAnswer
    ensures { result ≡ c_yes (shown_test in_work start len frame.now work.now) }
{
    let place = PayloadPlace {
        in_work,
        start,
        len,
    };
    secure_unseal::payload_test(frame, work, place).into()
}
