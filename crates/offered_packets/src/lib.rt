//! What a user is offered of a board, and the QWK packet that shows it: from a board in memory to the bytes of
//! CONTROL.DAT and MESSAGES.DAT.
#![tactic(auto)]

mod control;
mod fields;
mod highs;
pub mod laws;
mod lookups;
mod offered_message;
mod offering;
mod rights;
mod showing;
mod text;

pub use control::control_of;
pub use highs::highs_of;
pub use offered_message::{Offered, OfferedMessage};
pub use offering::offered;
pub use rights::{is_sysop, may_see, sees};
pub use showing::shown;
pub use text::{control_text, packet_text};
