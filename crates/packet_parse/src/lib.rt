// Reading a frame: a packet by value, whose parts are places in the caller's bytes, or a refusal.
#![tactic(auto)]

mod codec;
mod trailing;

pub use codec::{BlockPart, FrameHead, ParsedPacket, head, mac_start, parse};
