//! Deleted messages give their room back: their slots become Gone, and the others stay with their numbers.
#![tactic(auto)]

mod counting;
mod error;
mod fetching;
pub mod laws;
mod packing;

pub use error::PackError;
pub use mail_board::Loaded;
pub use packing::pack;
