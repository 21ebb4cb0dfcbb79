//! MESSAGES.DAT, by Patrick Y. Lee's QWK Mail Packet File Layout of 1992: blocks of 128 bytes, read and
//! written.
#![tactic(auto)]

mod event;
mod fault;
mod header;
pub mod laws;
mod message;
mod packet;
mod progress;
mod reader;
mod text;
mod writable;
mod write;

pub use event::{Event, Fed};
pub use fault::{BlocksFault, QwkError, QwkFault};
pub use message::{Header, QwkMessage, QwkMessages};
pub use packet::read_messages;
pub use reader::BlockReader;
pub use write::write_messages;
