//! The four JAM files of one conference, as they are written: of a new one, and what messages add to them.
#![tactic(auto)]

mod bodies;
mod files;
mod header;
mod jdx;
mod jhr;
mod jlr;
mod last;
mod message_subfields;
mod whole;

pub use bodies::write_bodies;
pub use files::write_first;
pub use header::add_header;
pub use jam_layout::{
    BareConference, BaseError, BaseFiles, ConferenceContents, Marks, Reader, Readers, SLOT_LIMIT,
    Shape, ThreadedConference, laws, read_bare, typed,
};
pub use jlr::{write_jlr, write_reader};
pub use last::{write_last_headers, write_last_records};
pub use shared_slots::{SharedSlots, header_length};
pub use whole::{write_whole_bodies, write_whole_headers, write_whole_records};
