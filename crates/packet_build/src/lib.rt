// Writing a frame into a buffer that the caller lends.
#![tactic(auto)]

mod codec;
mod put;
mod test;

pub use codec::{GivenMac, PacketBuilder, build, build_body};
