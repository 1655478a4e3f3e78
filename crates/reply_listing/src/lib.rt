// Lists the replies in the clear of a capture on standard output; a frame that is refused, and a write that fails, are also said on
// standard error (docs/RULES.md, 14).
#![tactic(auto)]

mod carried;
mod counting;
mod walk;
mod words;

pub use counting::Tally;
pub use walk::list;
