//! What a board makes of the messages of an uploaded reply packet, one after the other, each judged on the board with
//! the drafts that were accepted before it.
#![tactic(auto)]

mod accepted;
mod judging;
pub mod laws;
mod lookups;
mod outcome;
mod replies;
mod views;

pub use judging::{Judged, judge_all};
pub use outcome::{Outcome, Outcomes};
