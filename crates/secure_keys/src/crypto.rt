// One block of the cipher, session keys, cryptograms. Two numbers, SCBK and cUID, or two keys stay arguments of their own:
// docs/PROMISES.md promises these calls, and C hands them in so.
ghost use Rattle.std.specs.Prelude.{◌≡◌, ◌++◌};
ghost use Rattle.laws.specs.Bytes.{compl};
ghost use Rattle.aes.specs.Cipher.{E, D};
ghost use Rattle.aes.specs.Lent.{table_bytes, key_bytes};
ghost use Rattle.aes.specs.Ready.{enciphered};
ghost use Rattle.secure_keys.specs.Keys.{template, derive, client_of, server_of, first_of, legacy_of};

pub fn aes128_encrypt(key: [u8; 16], block: [u8; 16]) -> [u8; 16]
    ensures { result ≡ E key block }
{
    aes::encrypt_block(key, block)
}

pub fn aes128_decrypt(key: [u8; 16], block: [u8; 16]) -> [u8; 16]
    ensures { result ≡ D key block }
{
    aes::decrypt_block(key, block)
}

// The block that SCBK enciphers to a session key.
fn key_template(tag: u8, a: [u8; 8]) -> [u8; 16]
    ensures { result ≡ template tag a }
{
    let mut block = [0; 16];
    block[..2].copy_from_slice(&[1, tag]);
    block[2..8].copy_from_slice(&a[..6]);
    block
}

#[derive(Clone, Copy)]
pub struct SessionKeys {
    pub s_enc: [u8; 16],
    pub s_mac1: [u8; 16],
    pub s_mac2: [u8; 16],
}

impl SessionKeys {
    // SCBK is made ready once for the three blocks.
    #[tactic(auto, using(aes::proofs::Laws::enciphers), unfolding(crate::specs::Keys::derive))]
    pub fn derive(scbk: [u8; 16], rnd_a: [u8; 8]) -> Self
        ensures { result ≡ derive scbk rnd_a }
    {
        let t = aes::encrypt_tables();
        let k = aes::encrypt_key(&t, scbk);
        let key = |tag: u8| -> [u8; 16]
            ensures { result ≡ enciphered (table_bytes t.entry) (key_bytes k) (template tag rnd_a) }
        { aes::encrypt(&t, &k, key_template(tag, rnd_a)) };
        SessionKeys {
            s_enc: key(0x82),
            s_mac1: key(0x01),
            s_mac2: key(0x02),
        }
    }
}

// One after the other.
fn joined(a: [u8; 8], b: [u8; 8]) -> [u8; 16]
    ensures { result ≡ a ++ b }
{
    let mut both = [0; 16];
    both[..8].copy_from_slice(&a);
    both[8..].copy_from_slice(&b);
    both
}

#[tactic(auto, unfolding(crate::specs::Keys::client_of))]
pub fn client_cryptogram(s_enc: [u8; 16], rnd_a: [u8; 8], rnd_b: [u8; 8]) -> [u8; 16]
    ensures { result ≡ client_of s_enc rnd_a rnd_b }
{
    aes128_encrypt(s_enc, joined(rnd_a, rnd_b))
}

#[tactic(auto, unfolding(crate::specs::Keys::server_of))]
pub fn server_cryptogram(s_enc: [u8; 16], rnd_a: [u8; 8], rnd_b: [u8; 8]) -> [u8; 16]
    ensures { result ≡ server_of s_enc rnd_a rnd_b }
{
    aes128_encrypt(s_enc, joined(rnd_b, rnd_a))
}

#[tactic(auto, unfolding(crate::specs::Keys::first_of))]
pub fn initial_rmac(s_mac1: [u8; 16], s_mac2: [u8; 16], server: [u8; 16]) -> [u8; 16]
    ensures { result ≡ first_of s_mac1 s_mac2 server }
{
    aes128_encrypt(s_mac2, aes128_encrypt(s_mac1, server))
}

// Every bit turned.
fn complement(a: [u8; 8]) -> [u8; 8]
    ensures { result ≡ compl a }
{
    a.map(|byte| !byte)
}

#[tactic(auto, unfolding(crate::specs::Keys::legacy_of))]
pub fn diversify_scbk_legacy(mk: [u8; 16], cuid: [u8; 8]) -> [u8; 16]
    ensures { result ≡ legacy_of mk cuid }
{
    aes128_encrypt(mk, joined(cuid, complement(cuid)))
}
