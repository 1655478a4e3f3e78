// The chain: what a session keeps of the MACs that went both ways. It is made, looked into and moved here and nowhere else: its field is
// closed to every other file, and those only carry it along.
#![tactic(auto, unfolding(crate::specs::Chain::first_chain, crate::specs::Chain::chain_in, crate::specs::Chain::chain_out, crate::specs::Chain::send_from, crate::specs::Chain::recv_from, crate::specs::Chain::sent, crate::specs::Chain::received))]

ghost use Rattle.std.specs.Prelude.{◌≡◌};
ghost use Rattle.secure_session.specs.Chain.{no_chain, first_chain, chain_in, chain_out, with_chain, send_from, recv_from, sent, received};

use super::session::Session;
use secure_cipher::ChainMac;

// The last full MAC, of whichever end.
#[derive(Clone, Copy)]
pub struct Chain {
    value: [u8; 16],
}

impl Chain {
    // Before a handshake, and after a wipe.
    pub(crate) fn none() -> Chain
        ensures { result ≡ no_chain }
    {
        Chain { value: [0; 16] }
    }

    // As it comes in from C, which holds it as bytes.
    pub fn from_bytes(bytes: [u8; 16]) -> Chain
        ensures { result ≡ chain_in bytes }
    {
        Chain { value: bytes }
    }

    // As it goes out to C.
    pub fn as_bytes(self) -> [u8; 16]
        ensures { result ≡ chain_out self }
    {
        self.value
    }
}

impl Session {
    // With the value that a handshake ends with.
    pub(crate) fn chained(self, first: [u8; 16]) -> Session
        ensures { result ≡ with_chain self (first_chain first) }
    {
        Session {
            chain: Chain { value: first },
            ..self
        }
    }

    // Where a MAC that is made starts. Made and checked, sent and received are told apart by name, though one value is kept for both: each
    // has a definition of its own, and one function for two would say less.
    pub(crate) fn send_from(self) -> [u8; 16]
        ensures { result ≡ send_from self }
    {
        self.chain.value
    }

    // Where a MAC that is checked starts.
    pub(crate) fn recv_from(self) -> [u8; 16]
        ensures { result ≡ recv_from self }
    {
        self.chain.value
    }

    // After a MAC was made.
    pub(crate) fn sent(self, full: [u8; 16]) -> Session
        ensures { result ≡ sent self full }
    {
        Session {
            chain: Chain { value: full },
            ..self
        }
    }

    // After a MAC was found right.
    pub(crate) fn received(self, m: ChainMac) -> Session
        ensures { result ≡ received self m.full }
    {
        let value = m.full;
        Session {
            chain: Chain { value },
            ..self
        }
    }
}
