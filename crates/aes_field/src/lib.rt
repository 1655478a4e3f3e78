// FIPS 197: the field of bytes, and the two substitution tables.
#![tactic(auto)]

pub mod field;
pub mod sbox;
