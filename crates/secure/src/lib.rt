// The secure channel under one name: keys, padding, MAC and CBC, both ends of the session, sealing and unsealing. `lent` has the
// calls on a session that stays with the caller.
#![tactic(auto)]

pub mod lent;

pub use secure_cipher::{
    ChainMac, Ciphered, cbc_mac, complement_icv, decrypt_data, encrypt_data, pad_data, pad_mac,
    unpad_data,
};
pub use secure_keys::{
    SessionKeys, aes128_decrypt, aes128_encrypt, client_cryptogram, diversify_scbk_legacy,
    initial_rmac, same, server_cryptogram,
};
pub use secure_seal::{Direction, Sealed, ToSeal, seal};
pub use secure_session::{End, Processed, SecureSession, Session, State, Stepped};
pub use secure_unseal::{PayloadPlace, Unsealed, payload, payload_test, unseal};
