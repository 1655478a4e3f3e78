// What a body says, as numbers. What has no fixed length stays in the payload, and is looked up there.

// What a device says it is. The vendor is three bytes and no number: one of 32 bits could hold what they cannot. It is no array either,
// since `read_settled` tells any two answers apart, and of an array a proof would have to be told its length.
#[derive(Clone, Copy)]
pub struct DeviceId {
    pub vendor1: u8,
    pub vendor2: u8,
    pub vendor3: u8,
    pub model: u8,
    pub version: u8,
    pub serial: u32,
    pub major: u8,
    pub minor: u8,
    pub build: u8,
}

#[derive(Clone, Copy)]
pub enum Body {
    Ack,
    Nak { error: u8 },
    PdId(DeviceId),
    PdCap,
    LStatR { tamper: u8, power: u8 },
    Raw { reader: u8, format: u8, bits: u16 },
    Keypad { reader: u8, count: u8 },
}
