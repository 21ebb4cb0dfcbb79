//! The command that takes over another tool's JAM base.
#![tactic(auto)]

mod adopted;
mod adopting;
mod base_files;

pub use adopting::adopt;
