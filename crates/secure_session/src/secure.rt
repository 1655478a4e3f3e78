// A session that is Secure: what it does to bytes, at either end. Nothing of it can be refused for the session's state.
#![tactic(auto, unfolding(crate::specs::Chain::sent, crate::specs::Chain::received, crate::specs::Secure::secure_of, crate::specs::Secure::checked_of))]

ghost use Rattle.std.specs.Prelude.{◌≡◌, true, take};
ghost use Rattle.laws.specs.Bytes.{compl, eql};
ghost use Rattle.packet_head.specs.Numbers.{MAC_LEN};
ghost use Rattle.secure_cipher.specs.Cbc.{encrypt_of, decrypt_of, cipher_told};
ghost use Rattle.secure_session.specs.Chain.{send_from, recv_from, sent};
ghost use Rattle.secure_session.specs.Session.{is_secure};
ghost use Rattle.secure_session.specs.Channel.{session_mac};

use super::session::Session;
use packet_head::MAC_LEN;
use secure_cipher::{ChainMac, Ciphered};

#[derive(Clone, Copy)]
pub struct SecureSession {
    pub session: Session,
    pub ghost secure: { is_secure session.state ≡ true },
}

// Whether a full MAC begins with four bytes: one comparison of two numbers, which no byte ends early. The MAC comes with the record
// that holds it: a copy would be cut up for the comparison, and the chain value with it.
pub(crate) fn begins_with(m: ChainMac, four: [u8; MAC_LEN]) -> bool
    ensures { result ≡ eql (take MAC_LEN m.full) four }
{
    let front = [m.full[0], m.full[1], m.full[2], m.full[3]];
    u32::from_le_bytes(front) == u32::from_le_bytes(four)
}

impl Session {
    ghost use Rattle.secure_session.specs.Secure.{secure_of, secure_told};

    // As one that is Secure; none in any other state.
    pub fn secure(self) -> Option<SecureSession>
        ensures { secure_told result ≡ secure_of self }
    {
        if !self.is_secure() {
            return None;
        }
        Some(SecureSession { session: self })
    }
}

impl SecureSession {
    ghost use Rattle.secure_session.specs.Secure.{checked_of, secure_told};

    // The MAC of bytes that are sent, in full, and the session after it.
    pub fn mac(self, bytes: &[u8]) -> ([u8; 16], SecureSession)
        ensures full { result.0 ≡ (session_mac self.session (send_from self.session) bytes.now).full }
        ensures moved { result.1.session ≡ sent self.session (session_mac self.session (send_from self.session) bytes.now).full }
    {
        let session = self.session;
        let m = session.full_mac(session.send_from(), bytes);
        let full = m.full;
        let session = session.sent(full);
        (full, SecureSession { session })
    }

    // The four bytes of MAC that came with bytes: the session after them, or none where they are wrong.
    pub fn verify(self, bytes: &[u8], wire_mac: [u8; MAC_LEN]) -> Option<SecureSession>
        ensures { secure_told result ≡ checked_of self.session bytes.now wire_mac }
    {
        let session = self.session;
        let m = session.full_mac(session.recv_from(), bytes);
        if !begins_with(m, wire_mac) {
            return None;
        }
        let session = session.received(m);
        Some(SecureSession { session })
    }

    // Enciphers a payload into out, from the complement of the chain value. The twin on any session: promised each with its definition
    // (docs/PROMISES.md).
    pub fn seal_data(self, data: &[u8], out: &mut [u8]) -> Ciphered<usize>
        ensures { cipher_told result out.new ≡ encrypt_of self.session.keys.s_enc (compl (send_from self.session)) «data».now out.old }
    {
        let iv = secure_cipher::complement_icv(self.session.send_from());
        secure_cipher::encrypt_data(self.session.keys.s_enc, iv, data, out)
    }

    // Deciphers encrypted data into out, from the complement of the chain value. Its twin as above.
    pub fn open_data(self, ct: &[u8], out: &mut [u8]) -> Ciphered<usize>
        ensures { cipher_told result out.new ≡ decrypt_of self.session.keys.s_enc (compl (recv_from self.session)) ct.now out.old }
    {
        let iv = secure_cipher::complement_icv(self.session.recv_from());
        secure_cipher::decrypt_data(self.session.keys.s_enc, iv, ct, out)
    }
}
