// One block of the cipher, session keys, cryptograms. An array crosses inside a struct.
ghost use Rattle.std.specs.Prelude.{◌≡◌};
ghost use Rattle.aes.specs.Cipher.{E, D};
ghost use Rattle.secure_keys.specs.Keys.{derive, client_of, server_of, first_of, legacy_of};
ghost use Rattle.crossing.specs.Ciphers.{c_keys};

use crossing::{Bytes8, Bytes16, CKeys};
use secure_keys::SessionKeys;

pub fn malstrink_aes_encrypt(key: Bytes16, block: Bytes16) -> Bytes16
    ensures { result.bytes ≡ E key.bytes block.bytes }
{
    let bytes = secure_keys::aes128_encrypt(key.bytes, block.bytes);
    Bytes16 { bytes }
}

pub fn malstrink_aes_decrypt(key: Bytes16, block: Bytes16) -> Bytes16
    ensures { result.bytes ≡ D key.bytes block.bytes }
{
    let bytes = secure_keys::aes128_decrypt(key.bytes, block.bytes);
    Bytes16 { bytes }
}

pub fn malstrink_derive(scbk: Bytes16, rnd_a: Bytes8) -> CKeys
    ensures { result ≡ c_keys (derive scbk.bytes rnd_a.bytes) }
{
    SessionKeys::derive(scbk.bytes, rnd_a.bytes).into()
}

pub fn malstrink_client_cryptogram(s_enc: Bytes16, rnd_a: Bytes8, rnd_b: Bytes8) -> Bytes16
    ensures { result.bytes ≡ client_of s_enc.bytes rnd_a.bytes rnd_b.bytes }
{
    let bytes = secure_keys::client_cryptogram(s_enc.bytes, rnd_a.bytes, rnd_b.bytes);
    Bytes16 { bytes }
}

pub fn malstrink_server_cryptogram(s_enc: Bytes16, rnd_a: Bytes8, rnd_b: Bytes8) -> Bytes16
    ensures { result.bytes ≡ server_of s_enc.bytes rnd_a.bytes rnd_b.bytes }
{
    let bytes = secure_keys::server_cryptogram(s_enc.bytes, rnd_a.bytes, rnd_b.bytes);
    Bytes16 { bytes }
}

pub fn malstrink_initial_rmac(s_mac1: Bytes16, s_mac2: Bytes16, server: Bytes16) -> Bytes16
    ensures { result.bytes ≡ first_of s_mac1.bytes s_mac2.bytes server.bytes }
{
    let bytes = secure_keys::initial_rmac(s_mac1.bytes, s_mac2.bytes, server.bytes);
    Bytes16 { bytes }
}

pub fn malstrink_diversify_scbk_legacy(mk: Bytes16, cuid: Bytes8) -> Bytes16
    ensures { result.bytes ≡ legacy_of mk.bytes cuid.bytes }
{
    let bytes = secure_keys::diversify_scbk_legacy(mk.bytes, cuid.bytes);
    Bytes16 { bytes }
}
