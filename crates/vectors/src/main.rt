// The worked examples of FIPS 197 and of NIST SP 800-38A: how many of each group come out as the documents print them.
#![tactic(auto)]

use std::array;

// A block under a key, and what it is enciphered to.
#[derive(Clone, Copy)]
struct Example {
    key: [u8; 16],
    plain: [u8; 16],
    cipher: [u8; 16],
}

impl Example {
    fn enciphers(self) -> bool {
        aes::encrypt_block(self.key, self.plain) == self.cipher
    }

    fn deciphers(self) -> bool {
        aes::decrypt_block(self.key, self.cipher) == self.plain
    }
}

// FIPS 197, B.
const CIPHER_EXAMPLE: Example = Example {
    key: *b"\x2b\x7e\x15\x16\x28\xae\xd2\xa6\xab\xf7\x15\x88\x09\xcf\x4f\x3c",
    plain: *b"\x32\x43\xf6\xa8\x88\x5a\x30\x8d\x31\x31\x98\xa2\xe0\x37\x07\x34",
    cipher: *b"\x39\x25\x84\x1d\x02\xdc\x09\xfb\xdc\x11\x85\x97\x19\x6a\x0b\x32",
};

// FIPS 197, C.1.
const EXAMPLE_VECTOR: Example = Example {
    key: *b"\x00\x01\x02\x03\x04\x05\x06\x07\x08\x09\x0a\x0b\x0c\x0d\x0e\x0f",
    plain: *b"\x00\x11\x22\x33\x44\x55\x66\x77\x88\x99\xaa\xbb\xcc\xdd\xee\xff",
    cipher: *b"\x69\xc4\xe0\xd8\x6a\x7b\x04\x30\xd8\xcd\xb7\x80\x70\xb4\xc5\x5a",
};

// SP 800-38A, F: the key of its examples with AES-128.
const KEY: [u8; 16] = *b"\x2b\x7e\x15\x16\x28\xae\xd2\xa6\xab\xf7\x15\x88\x09\xcf\x4f\x3c";

// F.1.1 and F.1.2.
const ECB: [Example; 4] = [
    Example {
        key: KEY,
        plain: *b"\x6b\xc1\xbe\xe2\x2e\x40\x9f\x96\xe9\x3d\x7e\x11\x73\x93\x17\x2a",
        cipher: *b"\x3a\xd7\x7b\xb4\x0d\x7a\x36\x60\xa8\x9e\xca\xf3\x24\x66\xef\x97",
    },
    Example {
        key: KEY,
        plain: *b"\xae\x2d\x8a\x57\x1e\x03\xac\x9c\x9e\xb7\x6f\xac\x45\xaf\x8e\x51",
        cipher: *b"\xf5\xd3\xd5\x85\x03\xb9\x69\x9d\xe7\x85\x89\x5a\x96\xfd\xba\xaf",
    },
    Example {
        key: KEY,
        plain: *b"\x30\xc8\x1c\x46\xa3\x5c\xe4\x11\xe5\xfb\xc1\x19\x1a\x0a\x52\xef",
        cipher: *b"\x43\xb1\xcd\x7f\x59\x8e\xce\x23\x88\x1b\x00\xe3\xed\x03\x06\x88",
    },
    Example {
        key: KEY,
        plain: *b"\xf6\x9f\x24\x45\xdf\x4f\x9b\x17\xad\x2b\x41\x7b\xe6\x6c\x37\x10",
        cipher: *b"\x7b\x0c\x78\x5e\x27\xe8\xad\x3f\x82\x23\x20\x71\x04\x72\x5d\xd4",
    },
];

fn tell(rt: &HostRuntime, group: &str, right: &[bool]) {
    let hits = right.iter().filter(|hit| **hit).count();
    let of = right.len();
    let _ = println!(rt; "{group}: {hits} of {of}");
}

fn both_ways(rt: &HostRuntime, group: &str, example: Example) {
    tell(rt, group, &[example.enciphers(), example.deciphers()]);
}

// Which of the four blocks are those wanted. By place: of the iterator that `zip` leaves no array is made without a heap.
fn blocks(got: &[u8; 80], want: &[u8; 64]) -> [bool; 4] {
    let (got, _) = got.as_chunks::<16>();
    let (want, _) = want.as_chunks::<16>();
    array::from_fn(|i| got[i] == want[i])
}

// The document's four blocks fill their length, so the padding adds a fifth, which opening takes off again.
fn cbc(rt: &HostRuntime) {
    let iv = b"\x00\x01\x02\x03\x04\x05\x06\x07\x08\x09\x0a\x0b\x0c\x0d\x0e\x0f";
    let plain =
        b"\x6b\xc1\xbe\xe2\x2e\x40\x9f\x96\xe9\x3d\x7e\x11\x73\x93\x17\x2a\xae\x2d\x8a\x57\x1e\x03\xac\x9c\x9e\xb7\x6f\xac\x45\xaf\x8e\x51\x30\xc8\x1c\x46\xa3\x5c\xe4\x11\xe5\xfb\xc1\x19\x1a\x0a\x52\xef\xf6\x9f\x24\x45\xdf\x4f\x9b\x17\xad\x2b\x41\x7b\xe6\x6c\x37\x10";
    let cipher =
        b"\x76\x49\xab\xac\x81\x19\xb2\x46\xce\xe9\x8e\x9b\x12\xe9\x19\x7d\x50\x86\xcb\x9b\x50\x72\x19\xee\x95\xdb\x11\x3a\x91\x76\x78\xb2\x73\xbe\xd6\xb8\xe3\xc1\x74\x3b\x71\x16\xe6\x9e\x22\x22\x95\x16\x3f\xf1\xca\xa1\x68\x1f\xac\x09\x12\x0e\xca\x30\x75\x86\xe1\xa7";
    let mut out = [0u8; 80];
    secure_cipher::encrypt_data(KEY, *iv, plain, &mut out);
    tell(rt, "SP 800-38A F.2.1", &blocks(&out, cipher));
    let mut back = [0u8; 80];
    secure_cipher::decrypt_data(KEY, *iv, &out, &mut back);
    tell(rt, "SP 800-38A F.2.2", &blocks(&back, plain));
}

fn main(rt: HostRuntime) {
    both_ways(&rt, "FIPS 197 B", CIPHER_EXAMPLE);
    both_ways(&rt, "FIPS 197 C.1", EXAMPLE_VECTOR);
    tell(&rt, "SP 800-38A F.1.1", &ECB.map(Example::enciphers));
    tell(&rt, "SP 800-38A F.1.2", &ECB.map(Example::deciphers));
    cbc(&rt);
}
