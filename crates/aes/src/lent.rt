// What is lent for a run of blocks: a substitution table, and a key made ready. That both are as long as FIPS 197 has them is kept with
// them. In a file of its own, since specs/Lent, which says what bytes they hold, names them.
ghost use Rattle.std.specs.Prelude.{◌≡◌, length};
ghost use Rattle.aes.specs.Halves.{schedule_of};

use crate::round::Halves;

// A substitution table, lent.
#[derive(Clone, Copy)]
pub struct Tables<'a> {
    pub(crate) entries: &'a [u8; 256],
    pub(crate) ghost size: { length entries.now ≡ 256 },
}

// A key made ready: its round keys.
#[derive(Clone, Copy)]
pub struct Key {
    pub(crate) round_keys: [Halves; 11],
    pub(crate) ghost size: { length (schedule_of round_keys) ≡ 176 },
}
