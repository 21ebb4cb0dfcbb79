//! The caller's side of a QWK packet: what it prints of a packet's messages.
#![tactic(auto)]

mod folder;
mod letter;
mod listing;
mod print;
mod scan;

pub use folder::list_folder;
pub use letter::{ShowError, show_message};
pub use listing::list_packet;
pub use scan::{Scanned, scan_packet};
