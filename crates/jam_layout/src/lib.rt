//! The four JAM files of one conference, without changes: exactly their layout, and the first damage named.
#![tactic(auto)]

mod bare;
mod bodies;
mod conference;
mod entry;
mod error;
mod fields;
mod files;
mod headers;
mod index;
pub mod laws;
mod marks;
mod places;
mod pointers;
mod read;
mod reader;
mod reader_list;
mod second_pass;
mod shape;
mod sizes;
mod types;

pub use bare::{BareConference, ThreadedConference};
pub use conference::{ConferenceContents, SLOT_LIMIT};
pub use error::BaseError;
pub use files::BaseFiles;
pub use jam_threads::{Link, Shared, SharedList, Threads};
pub use marks::Marks;
pub use name_crc::name_crc;
pub use read::read_bare;
pub use reader::Reader;
pub use reader_list::Readers;
pub use shape::Shape;
pub use sizes::{header_size, message_size};
pub use types::{moments, typed};
