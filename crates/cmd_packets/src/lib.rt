//! The commands over a packet on the shelf: `list`, `read` and `scan`.
#![tactic(auto)]

mod control_file;
mod folder;
mod listing;
mod packet_file;
mod reading;
mod saying;
mod scanning;

pub use control_file::control_in;
pub use folder::{Packet, folder_in};
pub use listing::list;
pub use reading::{read, show};
pub use saying::CountLine;
pub use scanning::scan;
