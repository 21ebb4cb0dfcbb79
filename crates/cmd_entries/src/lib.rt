//! The door's commands: which words are which command, and the entries of a run that words are.
#![tactic(auto)]

mod batch;
mod command;
mod entries;
mod entry;
pub mod laws;
mod one_word;
mod unread;
mod words;
mod writing;

pub use command::Command;
pub use entries::entries_of;
pub use entry::{Entries, Entry, Usage};
pub use unread::Unread;
pub use words::Words;
