// The parsed packet as a view: it keeps the caller's frame, and shows block data, payload and MAC as parts of it.
#![tactic(auto)]

mod parts;
mod view;

pub use parts::{Places, Span, places_in};
pub use view::{PacketView, block_data_in, mac_in, payload_in};
