// The calls of a session on one that is lent: each makes the call by value and stores the session that comes back.
ghost use Rattle.std.specs.Prelude.{◌≡◌};
ghost use Rattle.secure_session.specs.Session.{wiped_of};
ghost use Rattle.secure_session.specs.Handshake.{challenge_of, receive_ccrypt_of, confirm_of, receive_challenge_of, receive_scrypt_of, stepped, stepped_block};
ghost use Rattle.secure_session.specs.Channel.{make_mac, verify_of};
ghost use Rattle.secure_seal.specs.Seal.{asked_of, seal_of, seal_told};
ghost use Rattle.secure_unseal.specs.Unseal.{unseal_of, unseal_told};

use refusal::Refusal;
use secure_cipher::Ciphered;
use secure_seal::ToSeal;
use secure_session::{Processed, Session, Stepped};
use secure_unseal::PayloadPlace;

// Stores the session that a step leaves, and hands on the answer.
fn stored<T>(session: &mut Session, r: Stepped<T>) -> Result<T, Refusal>
    ensures answer { result ≡ r.answer }
    ensures session_after { session.new ≡ r.session }
{
    *session = r.session;
    r.answer
}

// The same with the count of calls.
fn stored_counted<T>(session: &mut Session, r: Processed<T>) -> Ciphered<T>
    ensures told { result ≡ record { answer = r.answer; calls = r.calls } }
    ensures session_after { session.new ≡ r.session }
{
    *session = r.session;
    Ciphered {
        answer: r.answer,
        calls: r.calls,
    }
}

pub fn wipe(session: &mut Session)
    ensures { session.new ≡ wiped_of session.old }
{
    *session = session.wipe();
}

pub fn challenge(session: &mut Session, rnd_a: [u8; 8]) -> Result<(), Refusal>
    ensures { stepped (record { answer = result; session = session.new }) ≡ challenge_of session.old rnd_a }
{
    stored(session, session.challenge(rnd_a))
}

pub fn receive_ccrypt(
    session: &mut Session,
    cuid: [u8; 8],
    rnd_b: [u8; 8],
    client_cryptogram: [u8; 16],
) -> Result<(), Refusal>
    ensures { stepped (record { answer = result; session = session.new }) ≡ receive_ccrypt_of session.old cuid rnd_b client_cryptogram }
{
    stored(
        session,
        session.receive_ccrypt(cuid, rnd_b, client_cryptogram),
    )
}

pub fn confirm_rmac_i(session: &mut Session, rmac_i: [u8; 16]) -> Result<(), Refusal>
    ensures { stepped (record { answer = result; session = session.new }) ≡ confirm_of session.old rmac_i }
{
    stored(session, session.confirm_rmac_i(rmac_i))
}

pub fn receive_challenge(
    session: &mut Session,
    rnd_a: [u8; 8],
    rnd_b: [u8; 8],
) -> Result<[u8; 16], Refusal>
    ensures { stepped_block (record { answer = result; session = session.new }) ≡ receive_challenge_of session.old rnd_a rnd_b }
{
    stored(session, session.receive_challenge(rnd_a, rnd_b))
}

pub fn receive_scrypt(
    session: &mut Session,
    server_cryptogram: [u8; 16],
) -> Result<[u8; 16], Refusal>
    ensures { stepped_block (record { answer = result; session = session.new }) ≡ receive_scrypt_of session.old server_cryptogram }
{
    stored(session, session.receive_scrypt(server_cryptogram))
}

pub fn mac(session: &mut Session, bytes: &[u8]) -> Result<[u8; 16], Refusal>
    ensures { stepped_block (record { answer = result; session = session.new }) ≡ make_mac session.old bytes.now }
{
    stored(session, session.mac(bytes))
}

pub fn verify(session: &mut Session, bytes: &[u8], wire_mac: [u8; 4]) -> Result<(), Refusal>
    ensures { stepped (record { answer = result; session = session.new }) ≡ verify_of session.old bytes.now wire_mac }
{
    stored(session, session.verify(bytes, wire_mac))
}

pub fn seal(session: &mut Session, w: ToSeal, data: &[u8], out: &mut [u8]) -> Ciphered<usize>
    ensures { seal_told (record { answer = result.answer; calls = result.calls; session = session.new }) out.new ≡ seal_of session.old (asked_of w «data».now) out.old }
{
    stored_counted(session, secure_seal::seal(*session, w, data, out))
}

pub fn unseal(session: &mut Session, frame: &[u8], work: &mut [u8]) -> Ciphered<PayloadPlace>
    ensures { unseal_told (record { answer = result.answer; calls = result.calls; session = session.new }) work.new ≡ unseal_of session.old frame.now work.old }
{
    stored_counted(session, secure_unseal::unseal(*session, frame, work))
}
