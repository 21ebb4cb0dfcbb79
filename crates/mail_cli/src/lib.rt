//! A run of the door: words become entries, and these are carried out over a host and a shelf, and their replies said.
#![tactic(auto)]

mod entries;
pub mod laws;
mod perform;
mod running;

pub use cmd_board::Refusal;
pub use cmd_entries::{Command, Entry, Usage, Words};
pub use entry_runs::{Class, Status};
pub use running::run;
