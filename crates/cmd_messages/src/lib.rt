//! The commands that change the messages of conferences: each finds the board of the host, or uses the one that was
//! kept, and then is refused or makes one change.
#![tactic(auto)]

mod draws;
mod entries;
mod importing;
mod killing;
mod last;
pub mod laws;
mod posts;
mod sampling;
mod saying;
mod texts;

pub use importing::import;
pub use killing::kill;
pub use sampling::sample;
pub use saying::{ImportedLine, KilledLine, SampledLine};
