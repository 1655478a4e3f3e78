// AES-128, FIPS 197.
#![tactic(auto)]

mod block;
mod direction;
mod lent;
mod ready;
mod round;
mod schedule;

pub use block::{decrypt, decrypt_block, encrypt, encrypt_block};
pub use lent::{Key, Tables};
pub use ready::{
    DecryptKey, DecryptTables, EncryptKey, EncryptTables, decrypt_key, decrypt_tables, encrypt_key,
    encrypt_tables,
};
pub use round::Halves;
