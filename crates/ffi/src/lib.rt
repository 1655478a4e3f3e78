// The C face, as a library: every answer is a number and values, every slice a pointer and a length. ffi_c exports these calls to C.
#![tactic(auto)]

mod body;
mod build;
mod channel;
mod cipher;
mod head;
mod keys;
mod parse;
mod seal;
mod session;
mod sums;

pub use body::{malstrink_read_body, malstrink_triple};
pub use build::{malstrink_build, malstrink_build_body};
pub use channel::{
    malstrink_session_keys, malstrink_session_last_other_mac, malstrink_session_mac,
    malstrink_session_open_data, malstrink_session_seal_data, malstrink_session_verify,
};
pub use cipher::{
    malstrink_cbc_mac, malstrink_complement_icv, malstrink_decrypt_data, malstrink_encrypt_data,
    malstrink_pad_data, malstrink_pad_mac, malstrink_unpad_data,
};
pub use head::{
    malstrink_address_pd, malstrink_address_reply, malstrink_control_decode,
    malstrink_control_encode, malstrink_scs_type, malstrink_sqn_new, malstrink_sqn_next,
};
pub use keys::{
    malstrink_aes_decrypt, malstrink_aes_encrypt, malstrink_client_cryptogram, malstrink_derive,
    malstrink_diversify_scbk_legacy, malstrink_initial_rmac, malstrink_server_cryptogram,
};
pub use parse::{malstrink_block, malstrink_head, malstrink_parse};
pub use seal::{malstrink_payload_test, malstrink_seal, malstrink_unseal};
pub use session::{
    malstrink_session_challenge, malstrink_session_confirm_rmac_i, malstrink_session_initial_rmac,
    malstrink_session_new, malstrink_session_new_reader, malstrink_session_receive_ccrypt,
    malstrink_session_receive_challenge, malstrink_session_receive_scrypt,
    malstrink_session_server_cryptogram, malstrink_session_wipe,
};
pub use sums::{malstrink_checksum8, malstrink_crc16};
