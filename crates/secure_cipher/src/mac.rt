// The chain MAC, over a slice that is not copied.
ghost use Rattle.std.specs.Prelude.{◌≡◌, ◌-◌, ◌*◌, ◌/◌, ◌<◌, length, take, drop};
ghost use Rattle.aes.specs.Lent.{table_bytes};
ghost use Rattle.aes.specs.Ready.{encrypt_tables};
ghost use Rattle.secure_cipher.specs.Pad.{pad_mac};
ghost use Rattle.secure_cipher.specs.Mac.{mac_of, mac_calls, mac_told};
ghost use Rattle.secure_cipher.specs.Parts.{chained};

use super::{block, pad};

// The full MAC, and how often the cipher was called.
#[derive(Clone, Copy)]
pub struct ChainMac {
    pub full: [u8; 16],
    pub calls: usize,
}

// The chain value after blocks, each XORed in and enciphered with `key`. Of no block no key is made ready.
fn chain(t: &aes::EncryptTables, key: [u8; 16], icv: [u8; 16], blocks: &[[u8; 16]]) -> [u8; 16]
    requires { table_bytes t.now ≡ encrypt_tables }
    ensures { result ≡ chained key icv blocks.now }
{
    if blocks.is_empty() {
        return icv;
    }
    let k = aes::encrypt_key(t, key);
    let mut v = icv;
    for b in blocks {
        v = aes::encrypt(t, &k, block::xor(v, *b));
    }
    v
}

// The last block of s padded for the MAC.
fn last_mac_block(s: &[u8]) -> [u8; 16]
    requires { 0 < length s.now }
    ensures { result ≡ take 16 (drop ((length s.now - 1) / 16 * 16) (pad_mac s.now)) }
{
    if s.len() % 16 == 0 {
        block::block_at(s, s.len() - 16)
    } else {
        pad::last_data_block(s)
    }
}

pub fn cbc_mac(input: &[u8], icv: [u8; 16], s_mac1: [u8; 16], s_mac2: [u8; 16]) -> ChainMac
    ensures { mac_told result ≡ mac_of s_mac1 s_mac2 icv input.now }
{
    if input.is_empty() {
        return ChainMac {
            full: icv,
            calls: 0,
        };
    }
    let t = aes::encrypt_tables();
    let before = (input.len() - 1) / 16;
    let (whole, _) = input.as_chunks::<16>();
    let v = chain(&t, s_mac1, icv, &whole[..before]);
    let k = aes::encrypt_key(&t, s_mac2);
    let full = aes::encrypt(&t, &k, block::xor(v, last_mac_block(input)));
    ChainMac {
        full,
        calls: before + 1,
    }
}

// How often the cipher is called for the MAC of `len` bytes: what `cbc_mac` tells (`mac-counted`), for those who make a MAC
// through a session's call, which does not tell it.
#[tactic(auto, unfolding(crate::specs::Mac::mac_calls))]
pub fn mac_calls(len: usize) -> usize
    ensures { result ≡ mac_calls len }
{
    len.div_ceil(16)
}
