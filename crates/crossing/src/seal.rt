// What is to be sealed, what was sealed, and where an unsealed payload stands.
ghost use Rattle.std.specs.Prelude.{◌≡◌};
ghost use Rattle.secure_seal.specs.Parts.{refused_with};
ghost use Rattle.secure_seal.specs.Seal.{seal_of, seal_told};
ghost use Rattle.secure_unseal.specs.Unseal.{place_answer};
ghost use Rattle.crossing.specs.Sessions.{c_session};
ghost use Rattle.crossing.specs.Sealing.{direction_arg, asked_arg, c_unsealed, told_sealed};

use super::answer::{CAnswer, given};
use super::session::{CSession, session_c};
use packet_head::{Address, Sqn};
use refusal::Refusal;
use secure_seal::{Direction, Sealed, ToSeal};
use secure_session::Session;
use secure_unseal::Unsealed;

#[repr(C)]
#[derive(Clone, Copy)]
pub struct CToSeal {
    pub addr: u8,
    pub sqn: u8,
    pub from_reader: bool,
    pub encrypt: bool,
    pub code: u8,
}

#[repr(C)]
#[derive(Clone, Copy)]
pub struct CSealed {
    pub answer: CAnswer,
    pub calls: usize,
    pub session: CSession,
}

// Where the payload stands; all 0 beside a refusal.
#[repr(C)]
#[derive(Clone, Copy)]
pub struct CUnsealed {
    pub answer: CAnswer,
    pub in_work: bool,
    pub start: usize,
    pub len: usize,
    pub calls: usize,
    pub session: CSession,
}

// C's flag. From<bool> could be secure_seal's alone, where a bare bool would not say which end it means.
fn direction_of(from_reader: bool) -> Direction
    ensures { result ≡ direction_arg from_reader }
{
    if from_reader {
        Direction::PdToAcu
    } else {
        Direction::AcuToPd
    }
}

// A refusal leaves the session as it was and calls no cipher. One expression, as in secure_seal, each by its definition.
fn seal_refused(x: Session, e: Refusal) -> Sealed
    ensures { result ≡ refused_with x e }
{
    Sealed {
        answer: Err(e),
        calls: 0,
        session: x,
    }
}

// The state is tested before the SQN is looked at. A call with a name, as in session.rt: a session goes through it.
pub fn seal_asked(x: Session, p: CToSeal, data: &[u8], out: &mut [u8]) -> Sealed
    ensures { seal_told result out.new ≡ seal_of x (asked_arg p «data».now) out.old }
{
    if !x.is_secure() {
        return seal_refused(x, Refusal::WrongState);
    }
    let sqn = match Sqn::new(p.sqn) {
        Ok(sqn) => sqn,
        Err(e) => return seal_refused(x, e),
    };
    let asked = ToSeal {
        addr: Address::from_raw(p.addr),
        sqn,
        direction: direction_of(p.from_reader),
        encrypt: p.encrypt,
        code: p.code,
    };
    secure_seal::seal(x, asked, data, out)
}

// Calls with a name and no From, as in session.rt: a session goes out through each.
pub fn sealed_c(sealed: Sealed) -> CSealed
    ensures { result ≡ told_sealed sealed }
{
    CSealed {
        answer: sealed.answer.into(),
        calls: sealed.calls,
        session: session_c(sealed.session),
    }
}

pub fn unsealed_c(unsealed: Unsealed) -> CUnsealed
    ensures { result ≡ c_unsealed (place_answer unsealed.answer) unsealed.calls (c_session unsealed.session) }
{
    let session = session_c(unsealed.session);
    match unsealed.answer {
        Ok(place) => CUnsealed {
            answer: given(0),
            in_work: place.in_work,
            start: place.start,
            len: place.len,
            calls: unsealed.calls,
            session,
        },
        Err(e) => CUnsealed {
            answer: e.into(),
            in_work: false,
            start: 0,
            len: 0,
            calls: unsealed.calls,
            session,
        },
    }
}
