//! Single words of commands: numbers, and which conferences of a board are meant.
#![tactic(auto)]

mod choice;
mod number;

pub use choice::Choice;
pub use number::number_of;
