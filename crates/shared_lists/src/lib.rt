//! Values and lists that share what they have in common with their copies.
#![tactic(auto)]

mod handles;
mod lists;

pub use handles::Shared;
pub use lists::SharedList;
