// A session, by value, and what its calls answer. What goes through a session's doors is a call with a name and no `From`: that only
// `ffi` makes these calls is a rule of the house, and `.ci/promises` knows them by their names.
ghost use Rattle.std.specs.Prelude.{◌≡◌};
ghost use Rattle.secure_session.specs.Handshake.{stepped, stepped_block, block_answer};
ghost use Rattle.secure_session.specs.Channel.{keys_answer};
ghost use Rattle.crossing.specs.Sessions.{end_arg, state_arg, session_arg, end_read, state_read, taken, c_session, c_stepped, c_stepped_block, c_block_answer, c_keys_answer};

use super::answer::{CAnswer, given};
use super::keys::CKeys;
use refusal::Refusal;
use secure_keys::SessionKeys;
use secure_session::{
    Chain, End, Session, SessionFields, State, Stepped, end_number, state_number,
};

// end: 0 controller, 1 reader. state: 0 to 3, from Disconnected to Secure.
#[repr(C)]
#[derive(Clone, Copy)]
pub struct CSession {
    pub end: u8,
    pub state: u8,
    pub scbk: [u8; 16],
    pub rnd_a: [u8; 8],
    pub rnd_b: [u8; 8],
    pub cuid: [u8; 8],
    pub keys: CKeys,
    pub chain: [u8; 16],
}

#[repr(C)]
#[derive(Clone, Copy)]
pub struct CStepped {
    pub answer: CAnswer,
    pub session: CSession,
}

// Beside a refusal the block is zeros.
#[repr(C)]
#[derive(Clone, Copy)]
pub struct CSteppedBlock {
    pub answer: CAnswer,
    pub block: [u8; 16],
    pub session: CSession,
}

#[repr(C)]
#[derive(Clone, Copy)]
pub struct CBlockAnswer {
    pub answer: CAnswer,
    pub block: [u8; 16],
}

// Beside a refusal the keys are zeros.
#[repr(C)]
#[derive(Clone, Copy)]
pub struct CKeysAnswer {
    pub answer: CAnswer,
    pub keys: CKeys,
}

// ---- in and out

// Functions, and no TryFrom: only C has a byte for them, and to refuse any other by 16 is for this boundary alone.
#[tactic(auto, unfolding(crate::specs::Sessions::end_arg, laws::specs::Answer::choose))]
fn end_of(n: u8) -> Result<End, Refusal>
    ensures { end_read result ≡ end_arg n }
{
    match n {
        0 => Ok(End::Controller),
        1 => Ok(End::Reader),
        _ => Err(Refusal::WrongState),
    }
}

#[tactic(auto, unfolding(crate::specs::Sessions::state_arg, laws::specs::Answer::choose))]
fn state_of(n: u8) -> Result<State, Refusal>
    ensures { state_read result ≡ state_arg n }
{
    match n {
        0 => Ok(State::Disconnected),
        1 => Ok(State::Challenged),
        2 => Ok(State::Cryptogrammed),
        3 => Ok(State::Secure),
        _ => Err(Refusal::WrongState),
    }
}

// The one way in: the end first, then the state.
#[tactic(auto, unfolding(crate::specs::Sessions::session_arg, laws::specs::Answer::and_then))]
pub fn take(c: CSession) -> Result<Session, Refusal>
    ensures { taken result ≡ session_arg c }
{
    let CSession {
        end,
        state,
        scbk,
        rnd_a,
        rnd_b,
        cuid,
        keys,
        chain,
    } = c;
    let end = end_of(end)?;
    let state = state_of(state)?;
    Ok(Session::door_in(SessionFields {
        end,
        state,
        scbk,
        rnd_a,
        rnd_b,
        cuid,
        keys: keys.into(),
        chain: Chain::from_bytes(chain),
    }))
}

// The one way out.
pub fn session_c(s: Session) -> CSession
    ensures { result ≡ c_session s }
{
    let SessionFields {
        end,
        state,
        scbk,
        rnd_a,
        rnd_b,
        cuid,
        keys,
        chain,
    } = s.door_out();
    let chain = chain.as_bytes();
    CSession {
        end: end_number(end),
        state: state_number(state),
        scbk,
        rnd_a,
        rnd_b,
        cuid,
        keys: keys.into(),
        chain,
    }
}

// ---- answers

pub fn stepped_c(r: Stepped<()>) -> CStepped
    ensures { result ≡ c_stepped (stepped r) }
{
    CStepped {
        answer: r.answer.into(),
        session: session_c(r.session),
    }
}

pub fn stepped_block_c(r: Stepped<[u8; 16]>) -> CSteppedBlock
    ensures { result ≡ c_stepped_block (stepped_block r) }
{
    let CBlockAnswer { answer, block } = r.answer.into();
    CSteppedBlock {
        answer,
        block,
        session: session_c(r.session),
    }
}

impl From<Result<[u8; 16], Refusal>> for CBlockAnswer {
    ghost from_gives = { λ r c. c ≡ c_block_answer (block_answer r) };

    fn from(r: Result<[u8; 16], Refusal>) -> CBlockAnswer {
        match r {
            Ok(block) => CBlockAnswer {
                answer: given(0),
                block,
            },
            Err(e) => CBlockAnswer {
                answer: e.into(),
                block: [0; 16],
            },
        }
    }
}

impl From<Result<SessionKeys, Refusal>> for CKeysAnswer {
    ghost from_gives = { λ r c. c ≡ c_keys_answer (keys_answer r) };

    fn from(r: Result<SessionKeys, Refusal>) -> CKeysAnswer {
        match r {
            Ok(keys) => CKeysAnswer {
                answer: given(0),
                keys: keys.into(),
            },
            Err(e) => CKeysAnswer {
                answer: e.into(),
                keys: CKeys {
                    s_enc: [0; 16],
                    s_mac1: [0; 16],
                    s_mac2: [0; 16],
                },
            },
        }
    }
}
