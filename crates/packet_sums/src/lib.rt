// The two trailers of a frame: a checksum of one byte, and a CRC of two.
#![tactic(auto)]

mod checksum;
mod crc;

pub use checksum::checksum8;
pub use crc::{crc16, crc16_le};
