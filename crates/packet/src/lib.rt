// Everything of a frame, under one name: reading it, viewing it, building it, and its small kinds.
#![tactic(auto)]

pub use packet_build::{GivenMac, PacketBuilder, build, build_body};
pub use packet_head::{
    Address, BROADCAST_ADDR, CHECKSUM_LEN, CODE_LEN, CRC_LEN, ControlByte, HEAD_AND_CODE_LEN,
    HEADER_LEN, MAC_LEN, MAX_LEN, MAX_SCB_DATA, MAX_SQN, REPLY_FLAG, SCB_DATA_AT, SCB_HEADER_LEN,
    SOM, Scb, ScsType, Sqn, Trailer, trailer_len,
};
pub use packet_parse::{BlockPart, FrameHead, ParsedPacket, head, mac_start, parse};
pub use packet_sums::{checksum8, crc16, crc16_le};
pub use packet_view::{PacketView, Places, Span, block_data_in, mac_in, payload_in, places_in};
pub use slices::part;
