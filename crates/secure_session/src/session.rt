// One session of the channel, at either end.
ghost use Rattle.std.specs.Prelude.{◌≡◌};
ghost use Rattle.laws.specs.Bytes.{zeros};
ghost use Rattle.secure_keys.specs.Keys.{first_of};
ghost use Rattle.secure_session.specs.Session.{end_number, state_number, is_at, no_keys, fresh, reset, wiped_of, secured};
ghost use Rattle.secure_session.specs.declared.session.End.TheVariants.{Controller, Reader};
ghost use Rattle.secure_session.specs.Handshake.{challenge_of, receive_ccrypt_of, server_cryptogram_of, initial_rmac_of, confirm_of, receive_challenge_of, receive_scrypt_of, server_for, stepped, stepped_block, block_answer};

use super::chain::Chain;
use refusal::Refusal;
use secure_keys::SessionKeys;

// Beside secure_seal's Direction, two types of the Rust: an end, and who sends a frame.
#[derive(Clone, Copy, PartialEq, Eq)]
pub enum End {
    Controller = 0,
    Reader = 1,
}

#[derive(Clone, Copy, PartialEq, Eq)]
pub enum State {
    Disconnected = 0,
    Challenged = 1,
    Cryptogrammed = 2,
    Secure = 3,
}

// Its fields are closed: from outside a session is made and moved by its calls alone.
#[derive(Clone, Copy)]
pub struct Session {
    pub(crate) end: End,
    pub(crate) state: State,
    pub(crate) scbk: [u8; 16],
    pub(crate) rnd_a: [u8; 8],
    pub(crate) rnd_b: [u8; 8],
    pub(crate) cuid: [u8; 8],
    pub(crate) keys: SessionKeys,
    pub(crate) chain: Chain,
}

// What a call answers, and the session after it.
#[derive(Clone, Copy)]
pub struct Stepped<T> {
    pub answer: Result<T, Refusal>,
    pub session: Session,
}

// The same of a call that tells how often it called the cipher.
#[derive(Clone, Copy)]
pub struct Processed<T> {
    pub answer: Result<T, Refusal>,
    pub calls: usize,
    pub session: Session,
}

// The numbers that a session's end and state have outside of this language: both promised by name (docs/PROMISES.md).
pub fn end_number(e: End) -> u8
    ensures { result ≡ end_number e }
{
    e as u8
}

pub fn state_number(t: State) -> u8
    ensures { result ≡ state_number t }
{
    t as u8
}

// Zeros written out, as `no_keys` names them.
pub(crate) fn no_keys() -> SessionKeys
    ensures { result ≡ no_keys }
{
    SessionKeys {
        s_enc: [0; 16],
        s_mac1: [0; 16],
        s_mac2: [0; 16],
    }
}

// Disconnected, with SCBK and cUID and nothing else.
#[tactic(auto, unfolding(crate::specs::Session::fresh))]
fn fresh(end: End, scbk: [u8; 16], cuid: [u8; 8]) -> Session
    ensures { result ≡ fresh end scbk cuid }
{
    Session {
        end,
        state: State::Disconnected,
        scbk,
        rnd_a: [0; 8],
        rnd_b: [0; 8],
        cuid,
        keys: no_keys(),
        chain: Chain::none(),
    }
}

impl Session {
    // The controller's end.
    pub fn new(scbk: [u8; 16]) -> Session
        ensures { result ≡ fresh Controller scbk (zeros 8) }
    {
        fresh(End::Controller, scbk, [0; 8])
    }

    // The reader's end.
    pub fn new_reader(scbk: [u8; 16], cuid: [u8; 8]) -> Session
        ensures { result ≡ fresh Reader scbk cuid }
    {
        fresh(End::Reader, scbk, cuid)
    }

    // Zeroes everything but which end it is.
    #[tactic(auto, unfolding(crate::specs::Session::wiped_of))]
    pub fn wipe(self) -> Session
        ensures { result ≡ wiped_of self }
    {
        fresh(self.end, [0; 16], [0; 8])
    }

    // After a failed handshake: SCBK stays, and the reader's own cUID.
    #[tactic(auto, unfolding(crate::specs::Session::reset))]
    fn reset(self) -> Session
        ensures { result ≡ reset self }
    {
        match self.end {
            End::Controller => fresh(End::Controller, self.scbk, [0; 8]),
            End::Reader => fresh(End::Reader, self.scbk, self.cuid),
        }
    }

    fn is_at(self, end: End, state: State) -> bool
        ensures { result ≡ is_at end state self }
    {
        end == self.end && state == self.state
    }

    // Secure, with the first chain value.
    #[tactic(auto, unfolding(crate::specs::Session::secured))]
    fn secured(self, first: [u8; 16]) -> Session
        ensures { result ≡ secured self first }
    {
        Session {
            state: State::Secure,
            ..self
        }
        .chained(first)
    }

    // The server cryptogram that keys and random numbers give.
    fn server_for(self) -> [u8; 16]
        ensures { result ≡ server_for self }
    {
        secure_keys::server_cryptogram(self.keys.s_enc, self.rnd_a, self.rnd_b)
    }

    // The first chain value, given the server cryptogram.
    fn first_for(self, server: [u8; 16]) -> [u8; 16]
        ensures { result ≡ first_of self.keys.s_mac1 self.keys.s_mac2 server }
    {
        secure_keys::initial_rmac(self.keys.s_mac1, self.keys.s_mac2, server)
    }

    // In another state, or at another end: the session stays.
    pub(crate) fn wrong_state<T>(self) -> Stepped<T>
        ensures { result ≡ record { answer = Err Refusal.WrongState; session = self } }
    {
        Stepped {
            answer: Err(Refusal::WrongState),
            session: self,
        }
    }

    // A cryptogram or a first chain value is wrong: the handshake has to begin anew.
    fn wrong_cryptogram<T>(self) -> Stepped<T>
        ensures { result ≡ record { answer = Err Refusal.BadCryptogram; session = reset self } }
    {
        Stepped {
            answer: Err(Refusal::BadCryptogram),
            session: self.reset(),
        }
    }

    // ---- the controller's end

    #[tactic(auto, unfolding(crate::specs::Handshake::challenge_of))]
    pub fn challenge(self, rnd_a: [u8; 8]) -> Stepped<()>
        ensures { stepped result ≡ challenge_of self rnd_a }
    {
        if !self.is_at(End::Controller, State::Disconnected) {
            return self.wrong_state();
        }
        Stepped {
            answer: Ok(()),
            session: Session {
                state: State::Challenged,
                rnd_a,
                ..self
            },
        }
    }

    #[tactic(auto, unfolding(crate::specs::Handshake::receive_ccrypt_of))]
    pub fn receive_ccrypt(
        self,
        cuid: [u8; 8],
        rnd_b: [u8; 8],
        client_cryptogram: [u8; 16],
    ) -> Stepped<()>
        ensures { stepped result ≡ receive_ccrypt_of self cuid rnd_b client_cryptogram }
    {
        if !self.is_at(End::Controller, State::Challenged) {
            return self.wrong_state();
        }
        let keys = SessionKeys::derive(self.scbk, self.rnd_a);
        let want = secure_keys::client_cryptogram(keys.s_enc, self.rnd_a, rnd_b);
        if !secure_keys::same(&want, &client_cryptogram) {
            return self.wrong_cryptogram();
        }
        Stepped {
            answer: Ok(()),
            session: Session {
                state: State::Cryptogrammed,
                rnd_b,
                cuid,
                keys,
                ..self
            },
        }
    }

    #[tactic(auto, unfolding(crate::specs::Handshake::server_cryptogram_of))]
    pub fn server_cryptogram(self) -> Result<[u8; 16], Refusal>
        ensures { block_answer result ≡ server_cryptogram_of self }
    {
        if !self.is_at(End::Controller, State::Cryptogrammed) {
            return Err(Refusal::WrongState);
        }
        Ok(self.server_for())
    }

    #[tactic(auto, unfolding(crate::specs::Handshake::initial_rmac_of))]
    pub fn initial_rmac(self) -> Result<[u8; 16], Refusal>
        ensures { block_answer result ≡ initial_rmac_of self }
    {
        if !self.is_at(End::Controller, State::Cryptogrammed) {
            return Err(Refusal::WrongState);
        }
        Ok(self.first_for(self.server_for()))
    }

    #[tactic(auto, unfolding(crate::specs::Handshake::confirm_of))]
    pub fn confirm_rmac_i(self, rmac_i: [u8; 16]) -> Stepped<()>
        ensures { stepped result ≡ confirm_of self rmac_i }
    {
        if !self.is_at(End::Controller, State::Cryptogrammed) {
            return self.wrong_state();
        }
        let first = self.first_for(self.server_for());
        if !secure_keys::same(&first, &rmac_i) {
            return self.wrong_cryptogram();
        }
        Stepped {
            answer: Ok(()),
            session: self.secured(first),
        }
    }

    // ---- the reader's end

    #[tactic(auto, unfolding(crate::specs::Handshake::receive_challenge_of))]
    pub fn receive_challenge(self, rnd_a: [u8; 8], rnd_b: [u8; 8]) -> Stepped<[u8; 16]>
        ensures { stepped_block result ≡ receive_challenge_of self rnd_a rnd_b }
    {
        if !self.is_at(End::Reader, State::Disconnected) {
            return self.wrong_state();
        }
        let keys = SessionKeys::derive(self.scbk, rnd_a);
        Stepped {
            answer: Ok(secure_keys::client_cryptogram(keys.s_enc, rnd_a, rnd_b)),
            session: Session {
                state: State::Challenged,
                rnd_a,
                rnd_b,
                keys,
                ..self
            },
        }
    }

    #[tactic(auto, unfolding(crate::specs::Handshake::receive_scrypt_of))]
    pub fn receive_scrypt(self, server_cryptogram: [u8; 16]) -> Stepped<[u8; 16]>
        ensures { stepped_block result ≡ receive_scrypt_of self server_cryptogram }
    {
        if !self.is_at(End::Reader, State::Challenged) {
            return self.wrong_state();
        }
        let want = self.server_for();
        if !secure_keys::same(&want, &server_cryptogram) {
            return self.wrong_cryptogram();
        }
        let first = self.first_for(want);
        Stepped {
            answer: Ok(first),
            session: self.secured(first),
        }
    }
}
