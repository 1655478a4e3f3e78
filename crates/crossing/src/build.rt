// What C asks to have built, and the MAC that it gives.
ghost use Rattle.std.specs.Prelude.{◌≡◌};
ghost use Rattle.packet_build.specs.Build.{mac_bytes};
ghost use Rattle.crossing.specs.Building.{mac_arg, given_arg, KindMeets, AskedMeets};

use packet_build::{GivenMac, PacketBuilder};
use packet_head::{Address, ControlByte, ScsType, Sqn};
use refusal::Refusal;

// block is the control byte's flag; block_type is 0 where there is no block.
#[repr(C)]
#[derive(Clone, Copy)]
pub struct CPacket {
    pub addr: u8,
    pub sqn: u8,
    pub crc: bool,
    pub block: bool,
    pub block_type: u8,
    pub code: u8,
}

#[repr(C)]
#[derive(Clone, Copy)]
pub struct CMac {
    pub given: bool,
    pub b0: u8,
    pub b1: u8,
    pub b2: u8,
    pub b3: u8,
}

// No TryFrom: that 0 is no block holds of C's block_type alone.
#[tactic(auto, unfolding(crate::specs::Building::block_arg, laws::specs::Answer::choose, laws::specs::Answer::and_then))]
fn kind_of(ty: u8) -> Result<Option<ScsType>, Refusal>
    ensures { KindMeets result ty }
{
    if ty == 0 {
        return Ok(None);
    }
    Ok(Some(ScsType::from_byte(ty)?))
}

impl TryFrom<CPacket> for PacketBuilder {
    type Error = Refusal;

    ghost try_from_gives = { λ p r. AskedMeets r p };

    #[tactic(auto, unfolding(crate::specs::Building::parts_arg, laws::specs::Answer::and_then))]
    fn try_from(p: CPacket) -> Result<PacketBuilder, Refusal> {
        let sqn = Sqn::new(p.sqn)?;
        let block = kind_of(p.block_type)?;
        Ok(PacketBuilder {
            addr: Address::from_raw(p.addr),
            ctrl: ControlByte::new(sqn, p.crc, p.block),
            block,
            code: p.code,
        })
    }
}

impl From<CMac> for GivenMac {
    ghost from_gives = { λ m r. (r ≡ given_arg m) × (mac_bytes r ≡ mac_arg m) };

    fn from(m: CMac) -> GivenMac {
        if !m.given {
            return None;
        }
        Some([m.b0, m.b1, m.b2, m.b3])
    }
}
