// CIPHER and INVCIPHER, FIPS 197, 5.1 and 5.3.
ghost use Rattle.std.specs.Prelude.{◌≡◌};
ghost use Rattle.aes.specs.Cipher.{E, D};
ghost use Rattle.aes.specs.Ready.{enciphered, deciphered};
ghost use Rattle.aes.specs.Halves.{schedule_of};
ghost use Rattle.aes.specs.Lent.{table_bytes, key_bytes};

use crate::direction::{Deciphering, Direction, Enciphering};
use crate::ready;
use crate::round::Halves;

// Ten rounds in a direction, of which the last mixes no columns.
fn cipher<D: Direction>(t: &[u8; 256], keys: &[Halves; 11], block: [u8; 16]) -> [u8; 16]
    ensures { result ≡ D.whole t.now (schedule_of keys.now) block }
{
    let mut s = Halves::from(block) ^ D::round_key(keys, 0);
    // a number, and no iterator over the keys: the direction says which key a turn takes
    for turn in 1..10 {
        s = D::mix(D::substitute(t, s), D::round_key(keys, turn));
    }
    let last = D::round_key(keys, 10);
    (D::substitute(t, s) ^ last).into()
}

// Enciphers a block under a key made ready.
#[tactic(auto, unfolding(crate::specs::Ready::enciphered))]
pub fn encrypt(t: &ready::EncryptTables, k: &ready::EncryptKey, block: [u8; 16]) -> [u8; 16]
    ensures { result ≡ enciphered (table_bytes t.now) (key_bytes k.now) block }
{
    cipher::<Enciphering>(t.entries, &k.round_keys, block)
}

// Deciphers a block under a key made ready for that.
#[tactic(auto, unfolding(crate::specs::Ready::deciphered))]
pub fn decrypt(t: &ready::DecryptTables, k: &ready::DecryptKey, block: [u8; 16]) -> [u8; 16]
    ensures { result ≡ deciphered (table_bytes t.now) (key_bytes k.now) block }
{
    cipher::<Deciphering>(t.entries, &k.round_keys, block)
}

// One block under a key. The two calls of a block stand as they are promised (docs/PROMISES.md), over the one cipher.
#[tactic(auto, using(crate::proofs::Laws::enciphers))]
pub fn encrypt_block(key: [u8; 16], block: [u8; 16]) -> [u8; 16]
    ensures { result ≡ E key block }
{
    let t = ready::encrypt_tables();
    let k = ready::encrypt_key(&t, key);
    encrypt(&t, &k, block)
}

#[tactic(auto, using(crate::proofs::Laws::deciphers))]
pub fn decrypt_block(key: [u8; 16], block: [u8; 16]) -> [u8; 16]
    ensures { result ≡ D key block }
{
    let t = ready::encrypt_tables();
    let k = ready::decrypt_key(&t, key);
    let u = ready::decrypt_tables();
    decrypt(&u, &k, block)
}
