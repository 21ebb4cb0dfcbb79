//! The slots of a conference, in lists whose copies share what they have in common.
#![tactic(auto)]

mod sizes;
mod slots;

pub use sizes::header_length;
pub use slots::SharedSlots;
