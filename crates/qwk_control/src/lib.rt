//! CONTROL.DAT, by Patrick Y. Lee's QWK Mail Packet File Layout of 1992: the lines that describe a
//! packet, read and written.
#![tactic(auto)]

mod conferences;
mod control;
mod fault;
mod head;
mod id;
pub mod laws;
mod lines;
mod number;
mod read;
mod writable;
mod write;

pub use control::{Control, Listed};
pub use fault::ControlError;
pub use read::read_control;
pub use write::write_control;
