//! Reply packets, by Patrick Y. Lee's QWK Mail Packet File Layout of 1992: the file BBSID.MSG, read and
//! written.
#![tactic(auto)]

mod fault;
pub mod laws;
mod read;
mod rep;
mod size;
mod write;

pub use fault::RepError;
pub use read::read_rep;
pub use rep::{Rep, add_reply};
pub use write::write_rep;
