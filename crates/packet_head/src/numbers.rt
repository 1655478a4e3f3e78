// The numbers of a frame, each once: by the Rust's names where it has one.

// The first byte of every frame.
pub const SOM: u8 = 0x53;

// The highest address, which every reader takes for its own.
pub const BROADCAST_ADDR: u8 = 0x7F;

// Added to the address in what a reader sends.
pub const REPLY_FLAG: u8 = 0x80;

// The highest sequence number.
pub const MAX_SQN: u8 = 3;

// SOM, address, LEN in two bytes, CTRL.
pub const HEADER_LEN: usize = 5;

// A block's own length and its type.
pub const SCB_HEADER_LEN: usize = 2;

// Where a block's data begins.
pub const SCB_DATA_AT: usize = HEADER_LEN + SCB_HEADER_LEN;

// What the block's length byte leaves for its data.
pub const MAX_SCB_DATA: usize = 253;

// The command or reply code.
pub const CODE_LEN: usize = 1;

// What every frame has before its data.
pub const HEAD_AND_CODE_LEN: usize = HEADER_LEN + CODE_LEN;

// The first bytes of a MAC, which a frame carries.
pub const MAC_LEN: usize = 4;

pub const CHECKSUM_LEN: usize = 1;

pub const CRC_LEN: usize = 2;

// What LEN's two bytes can say.
pub const MAX_LEN: usize = 65535;
