// One block of the cipher, keys, padding and MAC, where no buffer is lent. Why the numbers stand, main.rt says.
use super::Case;
use super::given::Given;
use crossing::CChain;

fn mac(mut given: Given) -> CChain {
    let icv = given.next();
    let s_mac1 = given.next();
    let s_mac2 = given.next();
    ffi::malstrink_cbc_mac(given.rest(), icv, s_mac1, s_mac2)
}

pub(crate) fn agrees(op: u8, case: Case) -> bool {
    let Case { mut given, wanted } = case;
    match op {
        14 => wanted.is(ffi::malstrink_aes_encrypt(given.next(), given.next())),
        15 => wanted.is(ffi::malstrink_aes_decrypt(given.next(), given.next())),
        16 => wanted.is(ffi::malstrink_derive(given.next(), given.next())),
        17 => wanted.is(ffi::malstrink_client_cryptogram(given.next(), given.next(), given.next())),
        18 => wanted.is(ffi::malstrink_server_cryptogram(given.next(), given.next(), given.next())),
        19 => wanted.is(ffi::malstrink_initial_rmac(given.next(), given.next(), given.next())),
        20 => wanted.is(ffi::malstrink_diversify_scbk_legacy(given.next(), given.next())),
        24 => wanted.is(ffi::malstrink_unpad_data(given.rest())),
        25 => wanted.is(mac(given)),
        _ => wanted.is(ffi::malstrink_complement_icv(given.next())),
    }
}
