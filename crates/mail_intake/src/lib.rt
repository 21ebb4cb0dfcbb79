//! Messages that come into a board one after the other: whether there is room for each behind those before it, and the
//! lines that say what became of them.
#![tactic(auto)]

mod lines;
mod msgids;
mod tally;

pub use lines::{add_posted, add_refused, with_counts};
pub use msgids::MsgidSet;
pub use tally::Tally;
