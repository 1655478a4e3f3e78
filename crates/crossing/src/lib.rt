// What crosses the C boundary: the records that C has, and the ways in and out of them. Each record is promised field by field.
// A record is flat, flags and numbers side by side, since C has no sums. Zeros beside a refusal are written out, being promised.
#![tactic(auto)]

mod answer;
mod body;
mod build;
mod cipher;
mod head;
mod keys;
mod parse;
mod seal;
mod session;

pub use answer::{CAnswer, Told};
pub use body::{CBody, CTriple, body_c, triple_c};
pub use build::{CMac, CPacket};
pub use cipher::{CChain, CCiphered};
pub use head::CControl;
pub use keys::{Bytes4, Bytes8, Bytes16, CKeys};
pub use parse::{CBlock, CHead, CParsed};
pub use seal::{CSealed, CToSeal, CUnsealed, seal_asked, sealed_c, unsealed_c};
pub use session::{
    CBlockAnswer, CKeysAnswer, CSession, CStepped, CSteppedBlock, session_c, stepped_block_c,
    stepped_c, take,
};
