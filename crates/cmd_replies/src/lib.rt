//! The commands that write a reply packet on the shelf: `reply` and `compose`.
#![tactic(auto)]

mod composing;
mod drafted;
mod enlarging;
mod putting;
mod rep_file;
mod replying;
mod saying;

pub use composing::compose;
pub use putting::Added;
pub use replying::reply;
pub use saying::{ComposedLine, RepliedLine};
