// What the calls of the cipher answer.
ghost use Rattle.std.specs.Prelude.{◌≡◌};
ghost use Rattle.crossing.specs.Ciphers.{c_ciphered};

use super::answer::CAnswer;
use secure_cipher::Ciphered;

// How many bytes, and how often the cipher was called.
#[repr(C)]
#[derive(Clone, Copy)]
pub struct CCiphered {
    pub answer: CAnswer,
    pub calls: usize,
}

#[repr(C)]
#[derive(Clone, Copy)]
pub struct CChain {
    pub full: [u8; 16],
    pub calls: usize,
}

impl From<Ciphered<usize>> for CCiphered {
    ghost from_gives = { λ r c. c ≡ c_ciphered r };

    fn from(r: Ciphered<usize>) -> CCiphered {
        CCiphered {
            answer: r.answer.into(),
            calls: r.calls,
        }
    }
}
