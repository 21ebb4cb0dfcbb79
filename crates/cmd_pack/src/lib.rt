//! The command by which deleted messages give their room back.
#![tactic(auto)]

mod packing;
mod saying;

pub use packing::pack;
pub use saying::PackedLine;
