// An answer as C has it.
ghost use Rattle.std.specs.Prelude.{◌≡◌, ℕ};
ghost use Rattle.refusal.specs.Reading.{answer};
ghost use Rattle.crossing.specs.Answers.{c_given, c_refusal, c_answer};

use refusal::{Numbered, Refusal};

// 0 and what was asked for, or the refusal's number and what it carries.
#[repr(C)]
#[derive(Clone, Copy)]
pub struct CAnswer {
    pub refusal: u8,
    pub a: usize,
    pub b: usize,
}

// What C is told of by one number. No `Into<usize>`: () could not get it here, and no type of a crate below.
pub trait Told {
    ghost number: { Self → ℕ };

    fn number(self) -> usize
        ensures { result ≡ number self };
}

impl Told for usize {
    ghost number = { λ n. n };

    fn number(self) -> usize {
        self
    }
}

// Yes, and no more.
impl Told for () {
    ghost number = { λ yes. 0 };

    fn number(self) -> usize {
        0
    }
}

pub(crate) fn given(n: usize) -> CAnswer
    ensures { result ≡ c_given n }
{
    CAnswer {
        refusal: 0,
        a: n,
        b: 0,
    }
}

impl From<Refusal> for CAnswer {
    ghost from_gives = { λ e c. c ≡ c_refusal e };

    fn from(e: Refusal) -> CAnswer {
        let Numbered { number, a, b } = e.numbered();
        CAnswer {
            refusal: number,
            a,
            b,
        }
    }
}

impl<T: Told> From<Result<T, Refusal>> for CAnswer {
    ghost from_gives = { λ r c. c ≡ c_answer (answer T.number r) };

    fn from(r: Result<T, Refusal>) -> CAnswer {
        match r {
            Ok(x) => given(x.number()),
            Err(e) => e.into(),
        }
    }
}
