// Session keys, cryptograms, and the comparison of what must match.
#![tactic(auto)]

mod compare;
mod crypto;

pub use compare::same;
pub use crypto::{
    SessionKeys, aes128_decrypt, aes128_encrypt, client_cryptogram, diversify_scbk_legacy,
    initial_rmac, server_cryptogram,
};
