//! What stands outside the door: the disk and the voice of a host, and a shelf of named files. Each is a
//! trait whose clauses say what a call does, leaves and counts.
#![tactic(auto)]

mod allowance;
mod fault;
mod fetch;
mod file;
mod host;
mod name;
mod order;
mod packet_names;
mod shelf;
mod writing;

pub use allowance::Allowance;
pub use byte_lists::{Bytes, Duplicate, Lines, List};
pub use fault::{DiskFault, ShelfFault, VoiceFault};
pub use fetch::{FetchError, Fetched, fetch_whole};
pub use file::{FILE_COUNT, FileId};
pub use host::Host;
pub use name::ShelfName;
pub use packet_names::{control_name, messages_name};
pub use shelf::{Piece, Shelf};
pub use writing::write_file;
