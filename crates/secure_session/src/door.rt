// The doors of the C boundary. C holds a session's contents itself, so there they must come in and go out: these two calls, and nothing
// else beside the calls of the handshake and the channel, make a session or show what it holds. Only the crate `crossing` uses them;
// its calls over them are for `ffi` alone.
ghost use Rattle.std.specs.Prelude.{◌≡◌};
ghost use Rattle.secure_session.specs.Door.{door_out, door_in};

use super::chain::Chain;
use super::session::{End, Session, State};
use secure_keys::SessionKeys;

// What a session holds, open. Its conversions have names, and are no From: who opens a session is found by them.
#[derive(Clone, Copy)]
pub struct SessionFields {
    pub end: End,
    pub state: State,
    pub scbk: [u8; 16],
    pub rnd_a: [u8; 8],
    pub rnd_b: [u8; 8],
    pub cuid: [u8; 8],
    pub keys: SessionKeys,
    pub chain: Chain,
}

impl Session {
    pub fn door_out(self) -> SessionFields
        ensures { result ≡ door_out self }
    {
        let Session {
            end,
            state,
            scbk,
            rnd_a,
            rnd_b,
            cuid,
            keys,
            chain,
        } = self;
        SessionFields {
            end,
            state,
            scbk,
            rnd_a,
            rnd_b,
            cuid,
            keys,
            chain,
        }
    }

    pub fn door_in(f: SessionFields) -> Session
        ensures { result ≡ door_in f }
    {
        let SessionFields {
            end,
            state,
            scbk,
            rnd_a,
            rnd_b,
            cuid,
            keys,
            chain,
        } = f;
        Session {
            end,
            state,
            scbk,
            rnd_a,
            rnd_b,
            cuid,
            keys,
            chain,
        }
    }
}
