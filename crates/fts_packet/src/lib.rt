//! Type 2 packets of FTS-0001: the messages of one, or its first fault, and what a board makes of a message.
#![tactic(auto)]

mod address;
mod conference;
mod date;
mod draft;
mod fault;
pub mod laws;
mod message;
mod packet;
mod parts;
mod read;
mod rule;
mod rules;
mod text;
mod toss;
mod value;

pub use fault::{FtsError, FtsRule};
pub use packet::{FtsMessage, FtsPacket};
pub use read::read_packet;
pub use rule::TossRule;
pub use toss::{TossDraft, toss_draft};
