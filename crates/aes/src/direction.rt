// The two directions of the cipher. CIPHER and INVCIPHER differ in their table, in the way that the rows are shifted, in which is
// first, a round key or the mixing of the columns, and in the order of the round keys.
ghost use Rattle.std.specs.Prelude.{◌≡◌, ◌≤◌, ◌-◌, List, ℕ};
ghost use Rattle.aes_field.specs.Sbox.{SBOX, INVSBOX};
ghost use Rattle.aes.specs.State.{sub_bytes, shift_rows, inv_shift_rows, mix_columns, inv_mix_columns};
ghost use Rattle.aes.specs.Cipher.{cipher, inv_cipher};
ghost use Rattle.aes.specs.Halves.{halves_bytes, schedule_of, added, round_key, ten_rounds};
ghost use Rattle.aes.specs.Whole.{forth_whole, back_whole};

use crate::round::{self, Halves};
use aes_field::{field, sbox};

pub(crate) trait Direction {
    // the substitution table
    ghost table: { List ℕ };

    // a state under a table, its rows shifted
    ghost substituted: { List ℕ → List ℕ → List ℕ };

    // a state with a round key added and its columns mixed
    ghost mixed: { List ℕ → List ℕ → List ℕ };

    // which round key a turn takes
    ghost key_number: { ℕ → ℕ };

    // a block under a table and a key schedule: CIPHER or INVCIPHER
    ghost whole: { List ℕ → List ℕ → List ℕ → List ℕ };

    fn table() -> &'static [u8; 256]
        ensures { result.now ≡ table };

    fn substitute(t: &[u8; 256], s: Halves) -> Halves
        ensures { halves_bytes result ≡ substituted t.now (halves_bytes s) };

    fn mix(s: Halves, key: Halves) -> Halves
        ensures { halves_bytes result ≡ mixed (halves_bytes s) (halves_bytes key) };

    fn round_key(keys: &[Halves; 11], turn: usize) -> Halves
        requires { turn ≤ 10 }
        ensures { halves_bytes result ≡ round_key (schedule_of keys.now) (key_number turn) };

    ghost is_whole: { (t w b : List ℕ) → ten_rounds (substituted t) mixed (λ turn. round_key w (key_number turn)) b ≡ whole t w b };
}

// FIPS 197, 5.1.
#[derive(Drop)]
pub(crate) struct Enciphering;

impl Direction for Enciphering {
    ghost table = { SBOX };

    ghost substituted = { λ t s. shift_rows (sub_bytes t s) };

    ghost mixed = { λ s k. added (mix_columns s) k };

    ghost key_number = { λ turn. turn };

    ghost whole = { cipher };

    ghost is_whole = { forth_whole };

    fn table() -> &'static [u8; 256] {
        sbox::forward_table()
    }

    #[tactic(auto, using(crate::proofs::InHalves::shift_halves))]
    fn substitute(t: &[u8; 256], s: Halves) -> Halves {
        Halves {
            first: round::substitute(t, s, s),
            second: round::substitute(t, s.swapped(), s.swapped()),
        }
    }

    #[tactic(auto, using(crate::proofs::InHalves::mix_halves))]
    fn mix(s: Halves, key: Halves) -> Halves {
        let mixed = Halves {
            first: field::mix(s.first),
            second: field::mix(s.second),
        };
        mixed ^ key
    }

    #[tactic(auto, using(crate::proofs::RoundKeys::key_of))]
    fn round_key(keys: &[Halves; 11], turn: usize) -> Halves {
        keys[turn]
    }
}

// FIPS 197, 5.3.
#[derive(Drop)]
pub(crate) struct Deciphering;

impl Direction for Deciphering {
    ghost table = { INVSBOX };

    ghost substituted = { λ t s. sub_bytes t (inv_shift_rows s) };

    ghost mixed = { λ s k. inv_mix_columns (added s k) };

    ghost key_number = { λ turn. 10 - turn };

    ghost whole = { inv_cipher };

    ghost is_whole = { back_whole };

    fn table() -> &'static [u8; 256] {
        sbox::inverse_table()
    }

    #[tactic(auto, using(crate::proofs::InHalves::unshift_halves))]
    fn substitute(t: &[u8; 256], s: Halves) -> Halves {
        Halves {
            first: round::substitute(t, s, s.swapped()),
            second: round::substitute(t, s.swapped(), s),
        }
    }

    #[tactic(auto, using(crate::proofs::InHalves::unmix_halves))]
    fn mix(s: Halves, key: Halves) -> Halves {
        let keyed = s ^ key;
        Halves {
            first: field::unmix(keyed.first),
            second: field::unmix(keyed.second),
        }
    }

    #[tactic(auto, using(crate::proofs::RoundKeys::key_of))]
    fn round_key(keys: &[Halves; 11], turn: usize) -> Halves {
        keys[10 - turn]
    }
}
