// The 8-bit checksum, the trailer of a frame without CRC.
ghost use Rattle.std.specs.Prelude.{◌≡◌};
ghost use Rattle.packet_sums.specs.Checksum.{checksum_of};

// The byte that makes the sum of all bytes 0 modulo 256. A `for` over the bytes; a `fold` says no more.
#[tactic(auto, using(crate::proofs::SumLaws::summing), unfolding(crate::specs::Checksum::checksum_of))]
pub fn checksum8(bytes: &[u8]) -> u8
    ensures { result ≡ checksum_of bytes.now }
{
    let mut sum: u8 = 0;
    for byte in bytes {
        sum = sum.wrapping_add(*byte);
    }
    sum.wrapping_neg()
}
