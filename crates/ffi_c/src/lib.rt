// The exports of the C face: each calls the function of ffi that has its name, and promises what that one does.
#![tactic(auto)]

mod body;
mod build;
mod channel;
mod cipher;
mod head;
mod keys;
mod parse;
mod seal;
mod session;
mod sums;
