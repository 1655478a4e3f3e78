// What a session that is Secure does to bytes, at either end. Each call is a match on what was read: why, session.rt says.
#![tactic(auto, unfolding(crate::specs::Sessions::reading, crate::specs::Sessions::stepped_arg, crate::specs::Sessions::stepped_block_arg, crate::specs::Sessions::block_answer_arg, crate::specs::Sessions::keys_answer_arg, crate::specs::Sessions::done_arg, laws::specs::Answer::and_then))]

ghost use Rattle.std.specs.Prelude.{◌≡◌};
ghost use Rattle.secure_session.specs.Channel.{make_mac, verify_of, keys_of, last_other_mac_of, seal_data_of, open_data_of};
ghost use Rattle.crossing.specs.Ciphers.{c_done};
ghost use Rattle.ffi.specs.Sessions.{stepped_arg, stepped_block_arg, block_answer_arg, keys_answer_arg, done_arg, no_ciphered};

use super::session::{no_step, no_stepped_block};
use crossing::{
    Bytes4, CBlockAnswer, CCiphered, CKeysAnswer, CSession, CStepped, CSteppedBlock,
    stepped_block_c, stepped_c, take,
};
use refusal::Refusal;

fn no_ciphered(e: Refusal) -> CCiphered
    ensures { result ≡ no_ciphered e }
{
    CCiphered {
        answer: e.into(),
        calls: 0,
    }
}

// The MAC of bytes that are sent, in full.
pub fn malstrink_session_mac(s: CSession, bytes: &[u8]) -> CSteppedBlock
    ensures { result ≡ stepped_block_arg s (λ x. make_mac x bytes.now) }
{
    match take(s) {
        Ok(x) => stepped_block_c(x.mac(bytes)),
        Err(e) => no_stepped_block(s, e),
    }
}

// The four bytes of MAC that came with bytes.
pub fn malstrink_session_verify(s: CSession, bytes: &[u8], wire_mac: Bytes4) -> CStepped
    ensures { result ≡ stepped_arg s (λ x. verify_of x bytes.now wire_mac.bytes) }
{
    match take(s) {
        Ok(x) => stepped_c(x.verify(bytes, wire_mac.bytes)),
        Err(e) => no_step(s, e),
    }
}

pub fn malstrink_session_keys(s: CSession) -> CKeysAnswer
    ensures { result ≡ keys_answer_arg s keys_of }
{
    take(s).and_then(|x| x.keys()).into()
}

// The chain value that a MAC made next starts from.
pub fn malstrink_session_last_other_mac(s: CSession) -> CBlockAnswer
    ensures { result ≡ block_answer_arg s last_other_mac_of }
{
    take(s).and_then(|x| x.last_other_mac()).into()
}

pub fn malstrink_session_seal_data(s: CSession, data: &[u8], out: &mut [u8]) -> CCiphered
    ensures value { result ≡ c_done (done_arg s out.old (λ x. seal_data_of x «data».now out.old)) }
    ensures out_after { out.new ≡ (done_arg s out.old (λ x. seal_data_of x «data».now out.old)).out }
{
    match take(s) {
        Ok(x) => x.seal_data(data, out).into(),
        Err(e) => no_ciphered(e),
    }
}

pub fn malstrink_session_open_data(s: CSession, data: &[u8], out: &mut [u8]) -> CCiphered
    ensures value { result ≡ c_done (done_arg s out.old (λ x. open_data_of x «data».now out.old)) }
    ensures out_after { out.new ≡ (done_arg s out.old (λ x. open_data_of x «data».now out.old)).out }
{
    match take(s) {
        Ok(x) => x.open_data(data, out).into(),
        Err(e) => no_ciphered(e),
    }
}
