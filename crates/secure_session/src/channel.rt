// What a session does to bytes once it is Secure; in another state each call is refused.
ghost use Rattle.std.specs.Prelude.{◌≡◌};
ghost use Rattle.secure_cipher.specs.Cbc.{cipher_told};
ghost use Rattle.secure_session.specs.Session.{is_secure};
ghost use Rattle.secure_session.specs.Handshake.{stepped, stepped_block, block_answer};
ghost use Rattle.secure_session.specs.Channel.{session_mac, make_mac, verify_of, keys_of, last_other_mac_of, seal_data_of, open_data_of, keys_answer};

use super::secure::begins_with;
use super::session::{Session, State, Stepped};
use packet_head::MAC_LEN;
use refusal::Refusal;
use secure_cipher::{ChainMac, Ciphered};
use secure_keys::SessionKeys;

impl Session {
    // Whether it is Secure, at either end.
    pub fn is_secure(self) -> bool
        ensures { result ≡ is_secure self.state }
    {
        self.state == State::Secure
    }

    // The full MAC from a chain value on, with the session's keys.
    pub(crate) fn full_mac(self, start: [u8; 16], bytes: &[u8]) -> ChainMac
        ensures { result.full ≡ (session_mac self start bytes.now).full }
    {
        secure_cipher::cbc_mac(bytes, start, self.keys.s_mac1, self.keys.s_mac2)
    }

    // The MAC of bytes that are sent, in full. This and `verify` do the work themselves, and not by their twins on a session that is Secure:
    // handed over, it is copied once more, in each frame that is sealed and opened (docs/PERFORMANCE.md).
    #[tactic(auto, unfolding(crate::specs::Channel::make_mac))]
    pub fn mac(self, bytes: &[u8]) -> Stepped<[u8; 16]>
        ensures { stepped_block result ≡ make_mac self bytes.now }
    {
        if !self.is_secure() {
            return self.wrong_state();
        }
        let full = self.full_mac(self.send_from(), bytes).full;
        Stepped {
            answer: Ok(full),
            session: self.sent(full),
        }
    }

    // The four bytes of MAC that came with bytes.
    #[tactic(auto, unfolding(crate::specs::Channel::verify_of))]
    pub fn verify(self, bytes: &[u8], wire_mac: [u8; MAC_LEN]) -> Stepped<()>
        ensures { stepped result ≡ verify_of self bytes.now wire_mac }
    {
        if !self.is_secure() {
            return self.wrong_state();
        }
        let m = self.full_mac(self.recv_from(), bytes);
        if !begins_with(m, wire_mac) {
            return Stepped {
                answer: Err(Refusal::BadCryptogram),
                session: self,
            };
        }
        Stepped {
            answer: Ok(()),
            session: self.received(m),
        }
    }

    // The derived keys.
    #[tactic(auto, unfolding(crate::specs::Channel::keys_of, crate::specs::Secure::secure_of))]
    pub fn keys(self) -> Result<SessionKeys, Refusal>
        ensures { keys_answer result ≡ keys_of self }
    {
        let secure = self.secure().ok_or(Refusal::WrongState)?;
        Ok(secure.session.keys)
    }

    // The chain value that a MAC made next starts from.
    #[tactic(auto, unfolding(crate::specs::Channel::last_other_mac_of, crate::specs::Secure::secure_of))]
    pub fn last_other_mac(self) -> Result<[u8; 16], Refusal>
        ensures { block_answer result ≡ last_other_mac_of self }
    {
        let secure = self.secure().ok_or(Refusal::WrongState)?;
        Ok(secure.session.send_from())
    }

    // Enciphers a payload into out. The twin on a session that is Secure: promised each with its definition (docs/PROMISES.md).
    #[tactic(auto, unfolding(crate::specs::Channel::seal_data_of, crate::specs::Secure::secure_of))]
    pub fn seal_data(self, data: &[u8], out: &mut [u8]) -> Ciphered<usize>
        ensures { cipher_told result out.new ≡ seal_data_of self «data».now out.old }
    {
        match self.secure() {
            Some(secure) => secure.seal_data(data, out),
            None => Ciphered {
                answer: Err(Refusal::WrongState),
                calls: 0,
            },
        }
    }

    // Deciphers encrypted data into out. Its twin as above.
    #[tactic(auto, unfolding(crate::specs::Channel::open_data_of, crate::specs::Secure::secure_of))]
    pub fn open_data(self, ct: &[u8], out: &mut [u8]) -> Ciphered<usize>
        ensures { cipher_told result out.new ≡ open_data_of self ct.now out.old }
    {
        match self.secure() {
            Some(secure) => secure.open_data(ct, out),
            None => Ciphered {
                answer: Err(Refusal::WrongState),
                calls: 0,
            },
        }
    }
}
