// Sealing a frame.
#![tactic(auto)]

mod frame;

pub use frame::{Direction, Sealed, ToSeal, seal};
