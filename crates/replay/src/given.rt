// What a call is handed, taken out of a case from the front on. Beyond its end a case has zeros.
use crossing::{Bytes4, Bytes8, Bytes16, CMac, CPacket, CToSeal};
use std::array;

#[derive(Clone, Copy)]
pub(crate) struct Given<'a> {
    rest: &'a [u8],
}

impl<'a> Given<'a> {
    pub(crate) fn new(rest: &'a [u8]) -> Self {
        Given { rest }
    }

    // All that is left.
    pub(crate) fn rest(self) -> &'a [u8] {
        self.rest
    }

    // The next bytes; where they run past the end none, and none are left.
    pub(crate) fn part(&mut self, len: usize) -> &'a [u8] {
        let (part, rest) = self.rest.split_at_checked(len).unwrap_or((&[], &[]));
        self.rest = rest;
        part
    }

    pub(crate) fn next<T: Stored>(&mut self) -> T {
        T::taken(self)
    }

    // A length, which is stored in four bytes.
    pub(crate) fn len(&mut self) -> usize {
        let len: u32 = self.next();
        len as usize
    }
}

// What a case stores.
pub(crate) trait Stored {
    fn taken(given: &mut Given) -> Self;
}

impl<const N: usize> Stored for [u8; N] {
    fn taken(given: &mut Given) -> [u8; N] {
        let rest = given.rest;
        given.part(N);
        array::from_fn(|i| rest.get(i).copied().unwrap_or(0))
    }
}

impl Stored for u8 {
    fn taken(given: &mut Given) -> u8 {
        let [byte]: [u8; 1] = given.next();
        byte
    }
}

impl Stored for bool {
    fn taken(given: &mut Given) -> bool {
        let byte: u8 = given.next();
        byte != 0
    }
}

// The low byte comes first. A number that runs past the end is 0.
impl Stored for u32 {
    fn taken(given: &mut Given) -> u32 {
        given.part(4).try_into().map_or(0, u32::from_le_bytes)
    }
}

// In eight bytes: each half as above.
impl Stored for usize {
    fn taken(given: &mut Given) -> usize {
        let low: u32 = given.next();
        let high: u32 = given.next();
        high as usize * 0x1_0000_0000 + low as usize
    }
}

// One impl each for Bytes4, Bytes8 and Bytes16: C has three types.
impl Stored for Bytes4 {
    fn taken(given: &mut Given) -> Bytes4 {
        Bytes4 {
            bytes: given.next(),
        }
    }
}

impl Stored for Bytes8 {
    fn taken(given: &mut Given) -> Bytes8 {
        Bytes8 {
            bytes: given.next(),
        }
    }
}

impl Stored for Bytes16 {
    fn taken(given: &mut Given) -> Bytes16 {
        Bytes16 {
            bytes: given.next(),
        }
    }
}

impl Stored for CPacket {
    fn taken(given: &mut Given) -> CPacket {
        CPacket {
            addr: given.next(),
            sqn: given.next(),
            crc: given.next(),
            block: given.next(),
            block_type: given.next(),
            code: given.next(),
        }
    }
}

impl Stored for CMac {
    fn taken(given: &mut Given) -> CMac {
        CMac {
            given: given.next(),
            b0: given.next(),
            b1: given.next(),
            b2: given.next(),
            b3: given.next(),
        }
    }
}

impl Stored for CToSeal {
    fn taken(given: &mut Given) -> CToSeal {
        CToSeal {
            addr: given.next(),
            sqn: given.next(),
            from_reader: given.next(),
            encrypt: given.next(),
            code: given.next(),
        }
    }
}
