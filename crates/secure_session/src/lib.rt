// One session of the channel, at either end.
#![tactic(auto)]

mod chain;
mod channel;
mod door;
mod secure;
mod session;

pub use chain::Chain;
pub use door::SessionFields;
pub use secure::SecureSession;
pub use session::{End, Processed, Session, State, Stepped, end_number, state_number};
