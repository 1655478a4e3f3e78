// A frame that was read and has a MAC: the MAC and the data lie inside it.
ghost use Rattle.std.specs.Prelude.{◌≡◌, ◌+◌, ◌≤◌, length, take, drop};
ghost use Rattle.laws.specs.Bytes.{Bytes};
ghost use Rattle.packet_head.specs.Numbers.{MAC_LEN};

use packet_head::MAC_LEN;
use packet_parse::ParsedPacket;
use secure_cipher::Ciphered;
use secure_session::{SecureSession, Stepped};

#[derive(Clone, Copy)]
pub(crate) struct SealedFrame<'a> {
    pub frame: &'a [u8],
    pub p: ParsedPacket,
    pub mac_at: usize,
    ghost mac_inside: { mac_at + MAC_LEN ≤ length frame.now },
    ghost data_inside: { p.data_start + p.data_len ≤ length frame.now },
    ghost bytes: { Bytes frame.now },
}

impl<'a> SealedFrame<'a> {
    ghost use Rattle.laws.specs.Bytes.{compl};
    ghost use Rattle.secure_cipher.specs.Cbc.{decrypt_of, cipher_told};
    ghost use Rattle.secure_session.specs.Chain.{recv_from};
    ghost use Rattle.secure_session.specs.Channel.{verify_of};
    ghost use Rattle.secure_session.specs.Handshake.{stepped};

    // The four bytes of MAC.
    fn four(self) -> [u8; MAC_LEN]
        ensures { result ≡ take MAC_LEN (drop self.entry.mac_at self.entry.frame.now) }
    {
        let (frame, at) = (self.frame, self.mac_at);
        [frame[at], frame[at + 1], frame[at + 2], frame[at + 3]]
    }

    // The MAC over the bytes before its own, against the four bytes.
    pub(crate) fn check(self, secure: SecureSession) -> Stepped<()>
        ensures { stepped result ≡ verify_of secure.session (take self.entry.mac_at self.entry.frame.now) (take MAC_LEN (drop self.entry.mac_at self.entry.frame.now)) }
    {
        let body = &self.frame[..self.mac_at];
        secure.session.verify(body, self.four())
    }

    // The encrypted data, opened into the work buffer.
    pub(crate) fn open_data(self, secure: SecureSession, work: &mut [u8]) -> Ciphered<usize>
        ensures { cipher_told result work.new ≡ decrypt_of secure.session.keys.s_enc (compl (recv_from secure.session)) (take self.entry.p.data_len (drop self.entry.p.data_start self.entry.frame.now)) work.old }
    {
        let at = self.p.data_start;
        let ct = &self.frame[at..at + self.p.data_len];
        secure.session.open_data(ct, work)
    }
}
