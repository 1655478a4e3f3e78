// CBC over a payload, from the complemented chain value.
ghost use Rattle.std.specs.Prelude.{◌≡◌, ◌+◌, ◌*◌, ◌/◌, ◌%◌, ◌≤◌, length};
ghost use Rattle.laws.specs.Bytes.{compl};
ghost use Rattle.laws.specs.Blocks.{blocks};
ghost use Rattle.laws.specs.Over.{write};
ghost use Rattle.secure_cipher.specs.Cbc.{hide, dec_run, encrypt_of, decrypt_of, cipher_told};
ghost use Rattle.secure_cipher.specs.Parts.{bad_padding, Deciphered};

use super::{block, pad};
use refusal::Refusal;

// What a call answers, and how often it called the cipher.
#[derive(Clone, Copy)]
pub struct Ciphered<T> {
    pub answer: Result<T, Refusal>,
    pub calls: usize,
}

pub fn complement_icv(other_mac: [u8; 16]) -> [u8; 16]
    ensures { result ≡ compl other_mac }
{
    other_mac.map(|byte| !byte)
}

// Enciphers data, padded on the way, into the front of out.
fn encrypt_blocks(key: [u8; 16], iv: [u8; 16], data: &[u8], out: &mut [u8]) -> usize
    requires { (length «data».now / 16 + 1) * 16 ≤ length out.old }
    ensures { (out.new ≡ write out.old 0 (hide key iv «data».now).bytes) × (result ≡ (hide key iv «data».now).steps) }
{
    let t = aes::encrypt_tables();
    let k = aes::encrypt_key(&t, key);
    let (whole, _) = data.as_chunks::<16>();
    let mut v = iv;
    // by index: tried with as_chunks_mut and zip, whose proof did not close, for nothing is promised of what out holds after
    for (i, b) in whole.iter().enumerate() {
        let c = aes::encrypt(&t, &k, block::xor(*b, v));
        block::put(out, i * 16, c);
        v = c;
    }
    let n = whole.len();
    let last = aes::encrypt(&t, &k, block::xor(pad::last_data_block(data), v));
    block::put(out, n * 16, last);
    n + 1
}

// Pads and enciphers data into out.
pub fn encrypt_data(s_enc: [u8; 16], iv: [u8; 16], data: &[u8], out: &mut [u8]) -> Ciphered<usize>
    ensures { cipher_told result out.new ≡ encrypt_of s_enc iv «data».now out.old }
{
    let need = data.len() / 16 * 16 + 16;
    if let Err(e) = pad::room_for(out, need) {
        return Ciphered {
            answer: Err(e),
            calls: 0,
        };
    }
    let calls = encrypt_blocks(s_enc, iv, data, out);
    Ciphered {
        answer: Ok(need),
        calls,
    }
}

// Deciphers the blocks of ct into the front of out.
fn decrypt_blocks(key: [u8; 16], iv: [u8; 16], ct: &[u8], out: &mut [u8]) -> usize
    requires { (length ct.now % 16 ≡ 0) × (length ct.now ≤ length out.old) }
    ensures { Deciphered (dec_run key iv (blocks ct.now)) (length ct.now) out.old out.new result }
{
    let t = aes::encrypt_tables();
    let k = aes::decrypt_key(&t, key);
    let u = aes::decrypt_tables();
    let (whole, _) = ct.as_chunks::<16>();
    let mut v = iv;
    // by index: tried with as_chunks_mut and zip, whose proof did not close, for nothing is promised of what out holds after
    for (i, b) in whole.iter().enumerate() {
        block::put(out, i * 16, block::xor(aes::decrypt(&u, &k, *b), v));
        v = *b;
    }
    whole.len()
}

// Refuses by 14, with the first n bytes of out wiped.
fn bad_padding(out: &mut [u8], n: usize, calls: usize) -> Ciphered<usize>
    requires { n ≤ length out.old }
    ensures { cipher_told result out.new ≡ bad_padding n out.old calls }
{
    slices::zero(out, 0, n);
    Ciphered {
        answer: Err(Refusal::BadPadding),
        calls,
    }
}

// Deciphers ct into out and unpads it; a refusal by 14 leaves nothing of a plaintext behind.
pub fn decrypt_data(s_enc: [u8; 16], iv: [u8; 16], ct: &[u8], out: &mut [u8]) -> Ciphered<usize>
    ensures { cipher_told result out.new ≡ decrypt_of s_enc iv ct.now out.old }
{
    let n = ct.len();
    if let Err(e) = pad::room_for(out, n) {
        return Ciphered {
            answer: Err(e),
            calls: 0,
        };
    }
    if n == 0 {
        return bad_padding(out, n, 0);
    }
    if n % 16 != 0 {
        return bad_padding(out, n, 0);
    }
    let calls = decrypt_blocks(s_enc, iv, ct, out);
    match pad::unpad_data(&out[..n]) {
        Ok(len) => {
            // what follows the 80 was found to be zero
            out[len] = 0;
            Ciphered {
                answer: Ok(len),
                calls,
            }
        }
        Err(_) => bad_padding(out, n, calls),
    }
}
