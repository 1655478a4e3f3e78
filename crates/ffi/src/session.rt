// The calls of the handshake at both ends, on a session that C hands in by value. Each is a match on what was read: one function that is
// handed the call as a closure would save the match alone, and its promise would have to tell whatever the closure may answer.
#![tactic(auto, unfolding(crate::specs::Sessions::reading, crate::specs::Sessions::stepped_arg, crate::specs::Sessions::stepped_block_arg, crate::specs::Sessions::block_answer_arg, laws::specs::Answer::and_then))]

ghost use Rattle.std.specs.Prelude.{◌≡◌};
ghost use Rattle.laws.specs.Bytes.{zeros};
ghost use Rattle.secure_session.specs.declared.session.End.TheVariants.{Controller, Reader};
ghost use Rattle.secure_session.specs.Session.{fresh};
ghost use Rattle.secure_session.specs.Handshake.{challenge_of, receive_ccrypt_of, server_cryptogram_of, initial_rmac_of, confirm_of, receive_challenge_of, receive_scrypt_of};
ghost use Rattle.crossing.specs.Sessions.{c_session};
ghost use Rattle.ffi.specs.Sessions.{c_wiped, no_step, no_stepped_block, stepped_arg, stepped_block_arg, block_answer_arg};

use crossing::{
    Bytes8, Bytes16, CBlockAnswer, CKeys, CSession, CStepped, CSteppedBlock, session_c,
    stepped_block_c, stepped_c, take,
};
use refusal::Refusal;
use secure_session::Session;

// What comes of a session that cannot be read, here and in channel.rt and seal.rt: one function for each of C's records.
pub(crate) fn no_step(s: CSession, e: Refusal) -> CStepped
    ensures { result ≡ no_step s e }
{
    CStepped {
        answer: e.into(),
        session: s,
    }
}

pub(crate) fn no_stepped_block(s: CSession, e: Refusal) -> CSteppedBlock
    ensures { result ≡ no_stepped_block s e }
{
    CSteppedBlock {
        answer: e.into(),
        block: [0; 16],
        session: s,
    }
}

// ---- either end

pub fn malstrink_session_new(scbk: Bytes16) -> CSession
    ensures { result ≡ c_session (fresh Controller scbk.bytes (zeros 8)) }
{
    session_c(Session::new(scbk.bytes))
}

pub fn malstrink_session_new_reader(scbk: Bytes16, cuid: Bytes8) -> CSession
    ensures { result ≡ c_session (fresh Reader scbk.bytes cuid.bytes) }
{
    session_c(Session::new_reader(scbk.bytes, cuid.bytes))
}

// Good for a session that cannot be read as well: what it holds must not stay behind.
pub fn malstrink_session_wipe(s: CSession) -> CSession
    ensures { result ≡ c_wiped s }
{
    CSession {
        end: s.end,
        state: 0,
        scbk: [0; 16],
        rnd_a: [0; 8],
        rnd_b: [0; 8],
        cuid: [0; 8],
        keys: CKeys {
            s_enc: [0; 16],
            s_mac1: [0; 16],
            s_mac2: [0; 16],
        },
        chain: [0; 16],
    }
}

// ---- the controller's end

pub fn malstrink_session_challenge(s: CSession, rnd_a: Bytes8) -> CStepped
    ensures { result ≡ stepped_arg s (λ x. challenge_of x rnd_a.bytes) }
{
    match take(s) {
        Ok(x) => stepped_c(x.challenge(rnd_a.bytes)),
        Err(e) => no_step(s, e),
    }
}

pub fn malstrink_session_receive_ccrypt(
    s: CSession,
    cuid: Bytes8,
    rnd_b: Bytes8,
    client_cryptogram: Bytes16,
) -> CStepped
    ensures { result ≡ stepped_arg s (λ x. receive_ccrypt_of x cuid.bytes rnd_b.bytes client_cryptogram.bytes) }
{
    match take(s) {
        Ok(x) => stepped_c(x.receive_ccrypt(cuid.bytes, rnd_b.bytes, client_cryptogram.bytes)),
        Err(e) => no_step(s, e),
    }
}

pub fn malstrink_session_server_cryptogram(s: CSession) -> CBlockAnswer
    ensures { result ≡ block_answer_arg s server_cryptogram_of }
{
    take(s).and_then(|x| x.server_cryptogram()).into()
}

pub fn malstrink_session_initial_rmac(s: CSession) -> CBlockAnswer
    ensures { result ≡ block_answer_arg s initial_rmac_of }
{
    take(s).and_then(|x| x.initial_rmac()).into()
}

pub fn malstrink_session_confirm_rmac_i(s: CSession, rmac_i: Bytes16) -> CStepped
    ensures { result ≡ stepped_arg s (λ x. confirm_of x rmac_i.bytes) }
{
    match take(s) {
        Ok(x) => stepped_c(x.confirm_rmac_i(rmac_i.bytes)),
        Err(e) => no_step(s, e),
    }
}

// ---- the reader's end

pub fn malstrink_session_receive_challenge(
    s: CSession,
    rnd_a: Bytes8,
    rnd_b: Bytes8,
) -> CSteppedBlock
    ensures { result ≡ stepped_block_arg s (λ x. receive_challenge_of x rnd_a.bytes rnd_b.bytes) }
{
    match take(s) {
        Ok(x) => stepped_block_c(x.receive_challenge(rnd_a.bytes, rnd_b.bytes)),
        Err(e) => no_stepped_block(s, e),
    }
}

pub fn malstrink_session_receive_scrypt(s: CSession, server_cryptogram: Bytes16) -> CSteppedBlock
    ensures { result ≡ stepped_block_arg s (λ x. receive_scrypt_of x server_cryptogram.bytes) }
{
    match take(s) {
        Ok(x) => stepped_block_c(x.receive_scrypt(server_cryptogram.bytes)),
        Err(e) => no_stepped_block(s, e),
    }
}
