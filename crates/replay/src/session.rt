// A session as the cases store it: 106 bytes, in the order of its fields. Nothing else here knows what a session holds.
use super::given::{Given, Stored};
use super::wanted::{Answer, Wanted};
use crossing::{CKeys, CSession};

impl Stored for CKeys {
    fn taken(given: &mut Given) -> CKeys {
        CKeys {
            s_enc: given.next(),
            s_mac1: given.next(),
            s_mac2: given.next(),
        }
    }
}

impl Stored for CSession {
    fn taken(given: &mut Given) -> CSession {
        CSession {
            end: given.next(),
            state: given.next(),
            scbk: given.next(),
            rnd_a: given.next(),
            rnd_b: given.next(),
            cuid: given.next(),
            keys: given.next(),
            chain: given.next(),
        }
    }
}

impl Answer for CKeys {
    fn stripped<'a>(self, wanted: Wanted<'a>) -> Option<Wanted<'a>> {
        wanted
            .then(self.s_enc)?
            .then(self.s_mac1)?
            .then(self.s_mac2)
    }
}

impl Answer for CSession {
    fn stripped<'a>(self, wanted: Wanted<'a>) -> Option<Wanted<'a>> {
        wanted
            .then(self.end)?
            .then(self.state)?
            .then(self.scbk)?
            .then(self.rnd_a)?
            .then(self.rnd_b)?
            .then(self.cuid)?
            .then(self.keys)?
            .then(self.chain)
    }
}
