//! The words of a line of commands.
#![tactic(auto)]

pub mod laws;
mod spaces;
mod word;
mod words;

pub use words::words_of;
