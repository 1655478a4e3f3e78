// The small kinds of a frame: addresses, sequence numbers, the control byte, the security block and the trailer's kind.
#![tactic(auto)]

mod header;
mod numbers;
mod scb;
mod trailer;

pub use header::{Address, ControlByte, Sqn};
pub use numbers::{
    BROADCAST_ADDR, CHECKSUM_LEN, CODE_LEN, CRC_LEN, HEAD_AND_CODE_LEN, HEADER_LEN, MAC_LEN,
    MAX_LEN, MAX_SCB_DATA, MAX_SQN, REPLY_FLAG, SCB_DATA_AT, SCB_HEADER_LEN, SOM,
};
pub use scb::{Scb, ScsType};
pub use trailer::{Trailer, trailer_len};
