// What a run of blocks under one key goes by, made once for the run and lent for each block: the key made ready, and the tables,
// which all keys share. A contract sees the bytes of either (specs/Lent). Both are copied, so there is no `impl Model`: a struct with a
// lifetime and a view cannot be `Copy`.
ghost use Rattle.std.specs.Prelude.{◌≡◌};
ghost use Rattle.aes.specs.Ready.{encrypt_tables, decrypt_tables, encrypt_key, decrypt_key};
ghost use Rattle.aes.specs.Halves.{schedule_of};
ghost use Rattle.aes.specs.Lent.{table_bytes, key_bytes};

use crate::direction::{Deciphering, Direction, Enciphering};
use crate::lent::{Key, Tables};
use crate::round::Halves;
use crate::schedule;

impl<'a> From<&'a [u8; 256]> for Tables<'a> {
    ghost from_gives = { λ entries t. table_bytes t ≡ entries.now };

    fn from(entries: &'a [u8; 256]) -> Self {
        Tables { entries }
    }
}

impl From<[Halves; 11]> for Key {
    ghost from_gives = { λ round_keys k. key_bytes k ≡ schedule_of round_keys };

    #[tactic(auto, using(crate::proofs::RoundKeys::eleven_keys))]
    fn from(round_keys: [Halves; 11]) -> Self {
        Key { round_keys }
    }
}

// Either direction takes what was made ready for the other, as it does today: FIPS 197 has one schedule for both.
pub type EncryptTables<'a> = Tables<'a>;

pub type DecryptTables<'a> = Tables<'a>;

pub type EncryptKey = Key;

pub type DecryptKey = Key;

// Four names that are promised (docs/PROMISES.md), over what both directions share.
#[tactic(auto, unfolding(crate::specs::Ready::encrypt_tables))]
pub fn encrypt_tables() -> EncryptTables<'static>
    ensures { table_bytes result ≡ encrypt_tables }
{
    Enciphering::table().into()
}

#[tactic(auto, unfolding(crate::specs::Ready::decrypt_tables))]
pub fn decrypt_tables() -> DecryptTables<'static>
    ensures { table_bytes result ≡ decrypt_tables }
{
    Deciphering::table().into()
}

#[tactic(auto, unfolding(crate::specs::Ready::encrypt_key))]
pub fn encrypt_key(t: &EncryptTables, key: [u8; 16]) -> EncryptKey
    ensures { key_bytes result ≡ encrypt_key (table_bytes t.now) key }
{
    schedule::expand(t.entries, key).into()
}

// A key is made ready with the tables of enciphering both ways.
#[tactic(auto, unfolding(crate::specs::Ready::decrypt_key))]
pub fn decrypt_key(t: &EncryptTables, key: [u8; 16]) -> DecryptKey
    ensures { key_bytes result ≡ decrypt_key (table_bytes t.now) key }
{
    schedule::expand(t.entries, key).into()
}
