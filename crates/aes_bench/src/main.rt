// AES-128 for timing from outside. With one argument, a million blocks are enciphered, the key made ready for each; with two, a
// million are enciphered under one key made ready; with three, deciphered. Without any, a hundred of each. The last block of each
// run goes to standard output.
#![tactic(auto)]

use std::env::{Env, FillError};

// How the blocks of a run are made, each from the one before.
#[derive(Clone, Copy)]
enum Run {
    // the key made ready for each
    Expanding,
    // the key made ready once for the run
    Enciphering,
    Deciphering,
}

impl Run {
    // The last of n blocks.
    fn last(self, n: usize, key: [u8; 16]) -> [u8; 16] {
        let t = aes::encrypt_tables();
        match self {
            Run::Expanding => (0..n).fold(key, |b, _| aes::encrypt_block(key, b)),
            Run::Enciphering => {
                let k = aes::encrypt_key(&t, key);
                (0..n).fold(key, |b, _| aes::encrypt(&t, &k, b))
            }
            Run::Deciphering => {
                let k = aes::decrypt_key(&t, key);
                let u = aes::decrypt_tables();
                (0..n).fold(key, |b, _| aes::decrypt(&u, &k, b))
            }
        }
    }
}

// How many words the program was started with, its own name among them; 5 are many.
fn words(rt: &HostRuntime) -> usize {
    (0..5)
        .take_while(|at| !matches!(rt.arg(*at, &mut []), Err(FillError::NotPresent)))
        .count()
}

fn main(rt: HostRuntime) {
    let key = [0u8, 1, 2, 3, 4, 5, 6, 7, 8, 9, 10, 11, 12, 13, 14, 15];
    let (runs, n): (&[Run], usize) = match words(&rt) {
        2 => (&[Run::Expanding], 1000000),
        3 => (&[Run::Enciphering], 1000000),
        4 => (&[Run::Deciphering], 1000000),
        _ => (&[Run::Expanding, Run::Enciphering, Run::Deciphering], 100),
    };
    for run in runs {
        let _ = rt.stdout().write_all(&run.last(n, key));
    }
}
