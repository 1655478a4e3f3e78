// The calls on frames that are lent no buffer: sums, the small kinds, reading. Why the numbers stand, main.rt says.
use super::Case;

pub(crate) fn agrees(op: u8, case: Case) -> bool {
    let Case { mut given, wanted } = case;
    match op {
        0 => wanted.is(ffi::malstrink_checksum8(given.rest())),
        1 => wanted.is(ffi::malstrink_crc16(given.rest())),
        2 => wanted.is(ffi::malstrink_address_pd(given.next())),
        3 => wanted.is(ffi::malstrink_address_reply(given.next())),
        4 => wanted.is(ffi::malstrink_sqn_new(given.next())),
        5 => wanted.is(ffi::malstrink_sqn_next(given.next())),
        6 => wanted.is(ffi::malstrink_control_decode(given.next())),
        7 => wanted.is(ffi::malstrink_control_encode(given.next(), given.next(), given.next())),
        8 => wanted.is(ffi::malstrink_scs_type(given.next())),
        9 => wanted.is(ffi::malstrink_block(given.rest())),
        10 => wanted.is(ffi::malstrink_head(given.rest())),
        _ => wanted.is(ffi::malstrink_parse(given.rest())),
    }
}
