//! Byte strings and lists in memory that may run out: what the other crates keep their values in.
#![tactic(auto)]

mod bytes;
mod copies;
mod list;

pub use bytes::Bytes;
pub use copies::Duplicate;
pub use list::List;

/// A list of byte strings, as the lines of a text.
pub type Lines = List<Bytes>;
