// A sealed frame, checked and opened.
ghost use Rattle.std.specs.Prelude.{◌≡◌, List, ℕ, ◌≤◌, length};
ghost use Rattle.laws.specs.Answer.{Answer.given};
ghost use Rattle.packet_parse.specs.Frame.{parse_of, fields};
ghost use Rattle.secure_cipher.specs.Cbc.{wiped};
ghost use Rattle.secure_session.specs.Chain.{recv_from};
ghost use Rattle.secure_unseal.specs.Unseal.{check, open_data, unseal_plain, unseal_hidden, unseal_parsed, unsealed_on, unseal_of, unseal_told};
ghost use Rattle.secure_unseal.specs.Parts.{stopped};

use super::sealed::SealedFrame;
use packet_parse::ParsedPacket;
use refusal::Refusal;
use secure_session::{Processed, SecureSession, Session};

// Where an opened payload stands: in the work buffer or in the frame. C hands in and is told the flag and the two numbers
// (malstrink_payload_test), and `payload_test` is promised over them.
#[derive(Clone, Copy)]
pub struct PayloadPlace {
    pub in_work: bool,
    pub start: usize,
    pub len: usize,
}

// The place; how often the cipher was called; the session after it.
pub type Unsealed = Processed<PayloadPlace>;

// Nothing opened, the session as it was.
fn stopped(session: Session, e: Refusal, calls: usize) -> Unsealed
    ensures { result ≡ stopped session e calls }
{
    Unsealed {
        answer: Err(e),
        calls,
        session,
    }
}

// Zeros over the first n bytes.
fn wipe(work: &mut [u8], n: usize)
    requires { n ≤ length work.old }
    ensures { work.new ≡ wiped n work.old }
{
    slices::zero(work, 0, n);
}

// Types 15 and 16: the payload is shown where it stands in the frame.
fn unseal_plain(secure: SecureSession, sealed: SealedFrame) -> Unsealed
    ensures { (w : List ℕ) → unseal_told result w ≡ unsealed_on secure.session (unseal_plain (check secure.session.keys (recv_from secure.session) sealed.entry.frame.now sealed.entry.mac_at) (fields sealed.entry.p) w) }
{
    let p = sealed.p;
    let calls = secure_cipher::mac_calls(sealed.mac_at);
    let checked = sealed.check(secure);
    match checked.answer {
        Ok(()) => Unsealed {
            answer: Ok(PayloadPlace {
                in_work: false,
                start: p.data_start,
                len: p.data_len,
            }),
            calls,
            session: checked.session,
        },
        Err(e) => stopped(checked.session, e, calls),
    }
}

// Types 17 and 18: 18 and 14 come from the opening, 15 from the check after it, which alone moves the chain.
fn unseal_hidden(secure: SecureSession, sealed: SealedFrame, work: &mut [u8]) -> Unsealed
    ensures { unseal_told result work.new ≡ unsealed_on secure.session (unseal_hidden (check secure.session.keys (recv_from secure.session) sealed.entry.frame.now sealed.entry.mac_at) (open_data secure.session.keys (recv_from secure.session) sealed.entry.frame.now (fields sealed.entry.p)) (fields sealed.entry.p) work.old) }
{
    let p = sealed.p;
    let o = sealed.open_data(secure, work);
    let len = match o.answer {
        Ok(len) => len,
        Err(e) => return stopped(secure.session, e, o.calls),
    };
    let calls = o.calls + secure_cipher::mac_calls(sealed.mac_at);
    let checked = sealed.check(secure);
    match checked.answer {
        Ok(()) => Unsealed {
            answer: Ok(PayloadPlace {
                in_work: true,
                start: 0,
                len,
            }),
            calls,
            session: checked.session,
        },
        Err(e) => {
            // what was opened must not stay behind
            wipe(work, p.data_len);
            stopped(checked.session, e, calls)
        }
    }
}

// A frame that was read: the block's type says how it is sealed.
fn unseal_parsed(secure: SecureSession, frame: &[u8], p: ParsedPacket, work: &mut [u8]) -> Unsealed
    requires { parse_of frame.now ≡ given (fields p) }
    ensures { unseal_told result work.new ≡ unsealed_on secure.session (unseal_parsed secure.session.keys (recv_from secure.session) frame.now (given (fields p)) work.old) }
{
    let Some(block) = p.block else {
        return stopped(secure.session, Refusal::NotSecure, 0);
    };
    if !block.ty.has_mac() {
        return stopped(secure.session, Refusal::NotSecure, 0);
    }
    let mac_at = packet_parse::mac_start(p.mac);
    let sealed = SealedFrame { frame, p, mac_at };
    if block.ty.is_encrypted() {
        unseal_hidden(secure, sealed, work)
    } else {
        unseal_plain(secure, sealed)
    }
}

// Checks and opens the frame at the start of `frame`; an encrypted payload is laid into `work`.
pub fn unseal(session: Session, frame: &[u8], work: &mut [u8]) -> Unsealed
    ensures { unseal_told result work.new ≡ unseal_of session frame.now work.old }
{
    let Some(secure) = session.secure() else {
        return stopped(session, Refusal::WrongState, 0);
    };
    match packet_parse::parse(frame) {
        Ok(p) => unseal_parsed(secure, frame, p, work),
        Err(e) => stopped(session, e, 0),
    }
}
