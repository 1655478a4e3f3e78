// Reads the body of a reply whole, or refuses it, and shows the parts of it that have no fixed length (docs/RULES.md, 13).
#![tactic(auto)]

mod badge;
mod body;
mod lookup;
mod reading;

pub use badge::badge_number;
pub use body::{Body, DeviceId};
pub use lookup::{Triple, rest, triple_at};
pub use reading::read;
