// A session that is lent, and altered where the caller keeps it.
#![tactic(auto)]

mod lent;

pub use lent::{
    challenge, confirm_rmac_i, mac, receive_ccrypt, receive_challenge, receive_scrypt, seal,
    unseal, verify, wipe,
};
