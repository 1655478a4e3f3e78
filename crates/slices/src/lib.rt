// Bytes in slices that the caller lends. Every call is total: what has no room is left out, and a place outside shows nothing.
#![tactic(auto)]

mod number;
mod over;
mod place;

pub use number::{bytes_of_u16, bytes_of_u32, read_u16, read_u32, word};
pub use over::{copy, zero};
pub use place::{end_of, outside, part};
