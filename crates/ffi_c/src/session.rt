// The calls of the handshake at both ends, on a session that C hands in by value.
ghost use Rattle.std.specs.Prelude.{◌≡◌};
ghost use Rattle.laws.specs.Bytes.{zeros};
ghost use Rattle.secure_session.specs.declared.session.End.TheVariants.{Controller, Reader};
ghost use Rattle.secure_session.specs.Session.{fresh};
ghost use Rattle.secure_session.specs.Handshake.{challenge_of, receive_ccrypt_of, server_cryptogram_of, initial_rmac_of, confirm_of, receive_challenge_of, receive_scrypt_of};
ghost use Rattle.crossing.specs.Sessions.{c_session};
ghost use Rattle.ffi.specs.Sessions.{c_wiped, stepped_arg, stepped_block_arg, block_answer_arg};

use crossing::{Bytes8, Bytes16, CBlockAnswer, CSession, CStepped, CSteppedBlock};

// ---- either end

#[unsafe(no_mangle)]
pub extern "C" fn malstrink_session_new(scbk: Bytes16) -> CSession
    ensures { result ≡ c_session (fresh Controller scbk.bytes (zeros 8)) }
{
    ffi::malstrink_session_new(scbk)
}

#[unsafe(no_mangle)]
pub extern "C" fn malstrink_session_new_reader(scbk: Bytes16, cuid: Bytes8) -> CSession
    ensures { result ≡ c_session (fresh Reader scbk.bytes cuid.bytes) }
{
    ffi::malstrink_session_new_reader(scbk, cuid)
}

// Good for a session that cannot be read as well: what it holds must not stay behind.
#[unsafe(no_mangle)]
pub extern "C" fn malstrink_session_wipe(s: CSession) -> CSession
    ensures { result ≡ c_wiped s }
{
    ffi::malstrink_session_wipe(s)
}

// ---- the controller's end

#[unsafe(no_mangle)]
pub extern "C" fn malstrink_session_challenge(s: CSession, rnd_a: Bytes8) -> CStepped
    ensures { result ≡ stepped_arg s (λ x. challenge_of x rnd_a.bytes) }
{
    ffi::malstrink_session_challenge(s, rnd_a)
}

#[unsafe(no_mangle)]
pub extern "C" fn malstrink_session_receive_ccrypt(
    s: CSession,
    cuid: Bytes8,
    rnd_b: Bytes8,
    client_cryptogram: Bytes16,
) -> CStepped
    ensures { result ≡ stepped_arg s (λ x. receive_ccrypt_of x cuid.bytes rnd_b.bytes client_cryptogram.bytes) }
{
    ffi::malstrink_session_receive_ccrypt(s, cuid, rnd_b, client_cryptogram)
}

#[unsafe(no_mangle)]
pub extern "C" fn malstrink_session_server_cryptogram(s: CSession) -> CBlockAnswer
    ensures { result ≡ block_answer_arg s server_cryptogram_of }
{
    ffi::malstrink_session_server_cryptogram(s)
}

#[unsafe(no_mangle)]
pub extern "C" fn malstrink_session_initial_rmac(s: CSession) -> CBlockAnswer
    ensures { result ≡ block_answer_arg s initial_rmac_of }
{
    ffi::malstrink_session_initial_rmac(s)
}

#[unsafe(no_mangle)]
pub extern "C" fn malstrink_session_confirm_rmac_i(s: CSession, rmac_i: Bytes16) -> CStepped
    ensures { result ≡ stepped_arg s (λ x. confirm_of x rmac_i.bytes) }
{
    ffi::malstrink_session_confirm_rmac_i(s, rmac_i)
}

// ---- the reader's end

#[unsafe(no_mangle)]
pub extern "C" fn malstrink_session_receive_challenge(
    s: CSession,
    rnd_a: Bytes8,
    rnd_b: Bytes8,
) -> CSteppedBlock
    ensures { result ≡ stepped_block_arg s (λ x. receive_challenge_of x rnd_a.bytes rnd_b.bytes) }
{
    ffi::malstrink_session_receive_challenge(s, rnd_a, rnd_b)
}

#[unsafe(no_mangle)]
pub extern "C" fn malstrink_session_receive_scrypt(
    s: CSession,
    server_cryptogram: Bytes16,
) -> CSteppedBlock
    ensures { result ≡ stepped_block_arg s (λ x. receive_scrypt_of x server_cryptogram.bytes) }
{
    ffi::malstrink_session_receive_scrypt(s, server_cryptogram)
}
