// Unsealing a frame, and looking up the payload that was opened.
#![tactic(auto)]

mod frame;
mod lookup;
mod sealed;

pub use frame::{PayloadPlace, Unsealed, unseal};
pub use lookup::{payload, payload_test};
