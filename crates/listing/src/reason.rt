// Why, in words, for the refusals that reading a frame has.
use refusal::Refusal;
use std::fmt;

#[derive(Clone, Copy)]
pub(crate) struct Reason(pub(crate) Refusal);

impl fmt::Display for Reason {
    fn fmt<W: fmt::Write>(&self, f: &mut fmt::Formatter<W>) -> fmt::Result {
        f.write_str(match self.0 {
            Refusal::Truncated { .. } => "the bytes end before the frame does",
            Refusal::BadSom(_) => "no frame begins here",
            Refusal::BadControlByte(_) => "the control byte is wrong",
            Refusal::BadLength { .. } => "the length leaves no room for what the frame must hold",
            Refusal::BadSecurityBlockLength(_) => "the security block's length is wrong",
            Refusal::BadSecurityBlock(_) => "the security block's type is unknown",
            Refusal::BadCrc { .. } => "the CRC is wrong",
            Refusal::BadChecksum { .. } => "the checksum is wrong",
            _ => "docs/RULES.md, 1.2",
        })
    }
}
