// The two trailers.
ghost use Rattle.std.specs.Prelude.{◌≡◌};
ghost use Rattle.packet_sums.specs.Checksum.{checksum_of};
ghost use Rattle.packet_sums.specs.Crc.{crc_of};

#[unsafe(no_mangle)]
pub extern "C" fn malstrink_checksum8(bytes: &[u8]) -> u8
    ensures { result ≡ checksum_of bytes.now }
{
    ffi::malstrink_checksum8(bytes)
}

#[unsafe(no_mangle)]
pub extern "C" fn malstrink_crc16(bytes: &[u8]) -> u16
    ensures { result ≡ crc_of bytes.now }
{
    ffi::malstrink_crc16(bytes)
}
