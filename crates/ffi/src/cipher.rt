// Padding, the chain MAC, and CBC into a buffer that the caller lends.
ghost use Rattle.std.specs.Prelude.{◌≡◌, length};
ghost use Rattle.laws.specs.Bytes.{compl};
ghost use Rattle.laws.specs.Buffer.{sized, written};
ghost use Rattle.secure_cipher.specs.Pad.{pad_mac, pad_data, unpad, fitting};
ghost use Rattle.secure_cipher.specs.Cbc.{encrypt_of, decrypt_of};
ghost use Rattle.secure_cipher.specs.Mac.{mac_of};
ghost use Rattle.crossing.specs.Answers.{c_answer};
ghost use Rattle.crossing.specs.Ciphers.{c_done, c_chain};

use crossing::{Bytes16, CAnswer, CChain, CCiphered};
use secure_cipher::ChainMac;

pub fn malstrink_pad_mac(data: &[u8], out: &mut [u8]) -> CAnswer
    ensures value { result ≡ c_answer (sized (fitting (pad_mac «data».now) (length out.old))) }
    ensures out_after { out.new ≡ written out.old (fitting (pad_mac «data».now) (length out.old)) }
{
    secure_cipher::pad_mac(data, out).into()
}

pub fn malstrink_pad_data(data: &[u8], out: &mut [u8]) -> CAnswer
    ensures value { result ≡ c_answer (sized (fitting (pad_data «data».now) (length out.old))) }
    ensures out_after { out.new ≡ written out.old (fitting (pad_data «data».now) (length out.old)) }
{
    secure_cipher::pad_data(data, out).into()
}

pub fn malstrink_unpad_data(bytes: &[u8]) -> CAnswer
    ensures { result ≡ c_answer (unpad bytes.now) }
{
    secure_cipher::unpad_data(bytes).into()
}

pub fn malstrink_complement_icv(mac: Bytes16) -> Bytes16
    ensures { result.bytes ≡ compl mac.bytes }
{
    let bytes = secure_cipher::complement_icv(mac.bytes);
    Bytes16 { bytes }
}

pub fn malstrink_cbc_mac(input: &[u8], icv: Bytes16, s_mac1: Bytes16, s_mac2: Bytes16) -> CChain
    ensures { result ≡ c_chain (mac_of s_mac1.bytes s_mac2.bytes icv.bytes input.now) }
{
    let ChainMac { full, calls } = secure_cipher::cbc_mac(
        input,
        icv.bytes,
        s_mac1.bytes,
        s_mac2.bytes,
    );
    CChain { full, calls }
}

pub fn malstrink_encrypt_data(s_enc: Bytes16, iv: Bytes16, data: &[u8], out: &mut [u8]) -> CCiphered
    ensures value { result ≡ c_done (encrypt_of s_enc.bytes iv.bytes «data».now out.old) }
    ensures out_after { out.new ≡ (encrypt_of s_enc.bytes iv.bytes «data».now out.old).out }
{
    secure_cipher::encrypt_data(s_enc.bytes, iv.bytes, data, out).into()
}

pub fn malstrink_decrypt_data(s_enc: Bytes16, iv: Bytes16, data: &[u8], out: &mut [u8]) -> CCiphered
    ensures value { result ≡ c_done (decrypt_of s_enc.bytes iv.bytes «data».now out.old) }
    ensures out_after { out.new ≡ (decrypt_of s_enc.bytes iv.bytes «data».now out.old).out }
{
    secure_cipher::decrypt_data(s_enc.bytes, iv.bytes, data, out).into()
}
