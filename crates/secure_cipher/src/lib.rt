// What the channel does to bytes: padding, the chain MAC, CBC.
#![tactic(auto)]

mod block;
mod cipher;
mod mac;
mod pad;

pub use cipher::{Ciphered, complement_icv, decrypt_data, encrypt_data};
pub use mac::{ChainMac, cbc_mac, mac_calls};
pub use pad::{pad_data, pad_mac, unpad_data};
