// Why a call refuses, with what the customer's paper has it carry (docs/RULES.md, 1).
#![tactic(auto)]

ghost use Rattle.std.specs.Prelude.{◌≡◌};
ghost use Rattle.refusal.specs.Paper.{number_of, numbered_of};

// The cases stand in the order of their numbers, from 1 on.
#[derive(Clone, Copy)]
pub enum Refusal {
    Truncated { have: usize, need: usize },
    BadSom(u8),
    BadControlByte(u8),
    BadLength { declared: usize, actual: usize },
    BadSecurityBlockLength(u8),
    BadSecurityBlock(u8),
    BadCrc { got: u16, want: u16 },
    BadChecksum { got: u8, want: u8 },
    BadAddress(u8),
    BadSqn(u8),
    BadMac,
    BufferOverflow { need: usize, have: usize },
    NotSecure,
    BadPadding,
    BadCryptogram,
    WrongState,
    BlockTooLong(usize),
    NoRoom { need: usize, have: usize },
    BadBody(u8),
}

// A refusal as numbers: its own, and the two values that it carries; 0 stands for one that it does not carry.
#[derive(Clone, Copy)]
pub struct Numbered {
    pub number: u8,
    pub a: usize,
    pub b: usize,
}

fn row(number: u8, a: usize, b: usize) -> Numbered
    ensures { result ≡ record { number = number; a = a; b = b } }
{
    Numbered { number, a, b }
}

impl Refusal {
    pub fn number(self) -> u8
        ensures { result ≡ number_of self }
    {
        let n = self.numbered();
        n.number
    }

    // The paper's table, a row for each case. No From: docs/PROMISES.md promises it by this name.
    pub fn numbered(self) -> Numbered
        ensures { result ≡ numbered_of self }
    {
        match self {
            Refusal::Truncated { have, need } => row(1, have, need),
            Refusal::BadSom(b) => row(2, b.into(), 0),
            Refusal::BadControlByte(b) => row(3, b.into(), 0),
            Refusal::BadLength { declared, actual } => row(4, declared, actual),
            Refusal::BadSecurityBlockLength(b) => row(5, b.into(), 0),
            Refusal::BadSecurityBlock(b) => row(6, b.into(), 0),
            Refusal::BadCrc { got, want } => row(7, got.into(), want.into()),
            Refusal::BadChecksum { got, want } => row(8, got.into(), want.into()),
            Refusal::BadAddress(b) => row(9, b.into(), 0),
            Refusal::BadSqn(b) => row(10, b.into(), 0),
            Refusal::BadMac => row(11, 0, 0),
            Refusal::BufferOverflow { need, have } => row(12, need, have),
            Refusal::NotSecure => row(13, 0, 0),
            Refusal::BadPadding => row(14, 0, 0),
            Refusal::BadCryptogram => row(15, 0, 0),
            Refusal::WrongState => row(16, 0, 0),
            Refusal::BlockTooLong(n) => row(17, n, 0),
            Refusal::NoRoom { need, have } => row(18, need, have),
            Refusal::BadBody(code) => row(19, code.into(), 0),
        }
    }
}
