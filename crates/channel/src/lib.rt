// The channel as a whole: two conversations that agree in the open look alike. Definitions, the theorem, and the calls that hand
// a frame from one end to the other, which promise the definitions that the theorem is over.
#![tactic(auto)]

mod frames;
mod line;
mod messages;

pub use frames::{ToTransfer, Transferred, transfer};
pub use line::on_line;
pub use messages::{CarriedMessage, ToCarry, carry};
