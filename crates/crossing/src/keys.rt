// Blocks and session keys. An array crosses inside a struct; there is one for each size, as C has a name for each.
ghost use Rattle.std.specs.Prelude.{◌≡◌};
ghost use Rattle.crossing.specs.Ciphers.{c_keys};
ghost use Rattle.crossing.specs.Sessions.{keys_arg};

use secure_keys::SessionKeys;

#[repr(C)]
#[derive(Clone, Copy)]
pub struct Bytes16 {
    pub bytes: [u8; 16],
}

#[repr(C)]
#[derive(Clone, Copy)]
pub struct Bytes8 {
    pub bytes: [u8; 8],
}

#[repr(C)]
#[derive(Clone, Copy)]
pub struct Bytes4 {
    pub bytes: [u8; 4],
}

#[repr(C)]
#[derive(Clone, Copy)]
pub struct CKeys {
    pub s_enc: [u8; 16],
    pub s_mac1: [u8; 16],
    pub s_mac2: [u8; 16],
}

impl From<SessionKeys> for CKeys {
    ghost from_gives = { λ keys c. c ≡ c_keys keys };

    fn from(keys: SessionKeys) -> CKeys {
        let SessionKeys {
            s_enc,
            s_mac1,
            s_mac2,
        } = keys;
        CKeys {
            s_enc,
            s_mac1,
            s_mac2,
        }
    }
}

impl From<CKeys> for SessionKeys {
    ghost from_gives = { λ c keys. keys ≡ keys_arg c };

    fn from(c: CKeys) -> SessionKeys {
        let CKeys {
            s_enc,
            s_mac1,
            s_mac2,
        } = c;
        SessionKeys {
            s_enc,
            s_mac1,
            s_mac2,
        }
    }
}
