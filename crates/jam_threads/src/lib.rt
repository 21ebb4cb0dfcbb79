//! The links of a JAM message base between a message and its answers: ReplyTo, Reply1st and ReplyNext of
//! the JAM message base proposal, revision 1.
#![tactic(auto)]

mod first_numbers;
pub mod laws;
mod link;
mod linking;
mod original;
mod threads;

pub use link::{Link, LinkField, LinkPatch, Links};
pub use linking::links;
pub use original::original_of;
pub use shared_lists::{Shared, SharedList};
pub use threads::Threads;
