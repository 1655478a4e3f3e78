// What a session that is Secure does to bytes, at either end.
ghost use Rattle.std.specs.Prelude.{◌≡◌};
ghost use Rattle.secure_session.specs.Channel.{make_mac, verify_of, keys_of, last_other_mac_of, seal_data_of, open_data_of};
ghost use Rattle.crossing.specs.Ciphers.{c_done};
ghost use Rattle.ffi.specs.Sessions.{stepped_arg, stepped_block_arg, block_answer_arg, keys_answer_arg, done_arg};

use crossing::{Bytes4, CBlockAnswer, CCiphered, CKeysAnswer, CSession, CStepped, CSteppedBlock};

// The MAC of bytes that are sent, in full.
#[unsafe(no_mangle)]
pub extern "C" fn malstrink_session_mac(s: CSession, bytes: &[u8]) -> CSteppedBlock
    ensures { result ≡ stepped_block_arg s (λ x. make_mac x bytes.now) }
{
    ffi::malstrink_session_mac(s, bytes)
}

// The four bytes of MAC that came with bytes.
#[unsafe(no_mangle)]
pub extern "C" fn malstrink_session_verify(s: CSession, bytes: &[u8], wire_mac: Bytes4) -> CStepped
    ensures { result ≡ stepped_arg s (λ x. verify_of x bytes.now wire_mac.bytes) }
{
    ffi::malstrink_session_verify(s, bytes, wire_mac)
}

#[unsafe(no_mangle)]
pub extern "C" fn malstrink_session_keys(s: CSession) -> CKeysAnswer
    ensures { result ≡ keys_answer_arg s keys_of }
{
    ffi::malstrink_session_keys(s)
}

// The chain value that a MAC made next starts from.
#[unsafe(no_mangle)]
pub extern "C" fn malstrink_session_last_other_mac(s: CSession) -> CBlockAnswer
    ensures { result ≡ block_answer_arg s last_other_mac_of }
{
    ffi::malstrink_session_last_other_mac(s)
}

#[unsafe(no_mangle)]
pub extern "C" fn malstrink_session_seal_data(s: CSession, data: &[u8], out: &mut [u8]) -> CCiphered
    ensures value { result ≡ c_done (done_arg s out.old (λ x. seal_data_of x «data».now out.old)) }
    ensures out_after { out.new ≡ (done_arg s out.old (λ x. seal_data_of x «data».now out.old)).out }
{
    ffi::malstrink_session_seal_data(s, data, out)
}

#[unsafe(no_mangle)]
pub extern "C" fn malstrink_session_open_data(s: CSession, data: &[u8], out: &mut [u8]) -> CCiphered
    ensures value { result ≡ c_done (done_arg s out.old (λ x. open_data_of x «data».now out.old)) }
    ensures out_after { out.new ≡ (done_arg s out.old (λ x. open_data_of x «data».now out.old)).out }
{
    ffi::malstrink_session_open_data(s, data, out)
}
