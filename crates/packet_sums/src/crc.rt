// The CRC, the trailer of most frames. There is no table: the quotient by the polynomial is worked out by shifts, for up to eight
// bytes at once.
ghost use Rattle.std.specs.Prelude.{◌≡◌, ◌+◌, ◌*◌, ◌/◌, ◌%◌, ◌^◌, ◌<◌, length};
ghost use Rattle.slices.specs.Number.{low_first};
ghost use Rattle.packet_sums.specs.Crc.{crc_byte, crc_of};
ghost use Rattle.packet_sums.specs.Word.{word_from, crc_word};

// The value before the first byte.
const START: u16 = 0x1D0F;

// One byte more.
fn crc_byte(crc: u16, b: u8) -> u16
    ensures { result ≡ crc_byte crc b }
{
    let top = (crc >> 8) ^ u16::from(b);
    let quotient = top ^ (top >> 4);
    (crc << 8) ^ (quotient << 12) ^ (quotient << 5) ^ quotient
}

// The CRC, from 0, of the eight bytes of `z`: 1 / (1 + a) = (1 + a)(1 + a^2)(1 + a^4).., where 1 + a is the polynomial over x^16,
// and division by x^k is a shift.
fn crc_word(z: u64) -> u16
    ensures { result ≡ crc_word 8 z }
{
    let y1 = z ^ (z >> 4) ^ (z >> 11) ^ (z >> 16);
    let y2 = y1 ^ (y1 >> 8) ^ (y1 >> 22) ^ (y1 >> 32);
    let y4 = y2 ^ (y2 >> 16) ^ (y2 >> 44);
    let quotient = y4 ^ (y4 >> 32);
    (((quotient << 12) ^ (quotient << 5) ^ quotient) % 65536) as u16
}

// The CRC of the bytes that stand before the words of eight: those but for an odd one behind FF FF, as a number, and then that one.
// The start comes from FF FF, since 1D0F is their CRC from 0.
fn crc_head(head: &[u8]) -> u16
    requires { length head.now < 8 }
    ensures { result ≡ crc_of head.now }
{
    if head.is_empty() {
        return START;
    }
    let (pairs, odd) = head.as_chunks::<2>();
    let mut word = 0xFFFF;
    for pair in pairs {
        word = (word << 16) | u64::from(u16::from_be_bytes(*pair));
    }
    let even = crc_word(word);
    match odd {
        [] => even,
        [byte, ..] => crc_byte(even, *byte),
    }
}

// The CRC over all of `bytes`.
pub fn crc16(bytes: &[u8]) -> u16
    ensures { result ≡ crc_of bytes.now }
{
    let (head, words) = bytes.as_rchunks::<8>();
    let mut crc = crc_head(head);
    for word in words {
        crc = crc_word((u64::from(crc) << 48) ^ u64::from_be_bytes(*word));
    }
    crc
}

// The CRC as it travels, low byte first.
pub fn crc16_le(bytes: &[u8]) -> [u8; 2]
    ensures { result ≡ low_first 2 (crc_of bytes.now) }
{
    slices::bytes_of_u16(crc16(bytes))
}
