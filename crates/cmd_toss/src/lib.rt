//! The command that puts a FidoNet neighbour's packet into the conferences.
#![tactic(auto)]

mod packet_file;
mod seen;
mod tossed;
mod tossing;

pub use tossing::toss;
