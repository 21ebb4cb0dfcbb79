//! Another tool's JAM base (JAM message base proposal, revision 1), read leniently: its messages in the order of its index.
#![tactic(auto)]

mod bodies;
mod error;
mod found;
mod headers;
pub mod laws;
mod leaps;
mod parts;
mod read;
mod tables;
mod texts;
mod values;
mod verdict;

pub use error::ForeignError;
pub use found::{Foreign, ForeignRule, Found, FoundVerdict};
pub use read::read_foreign;
