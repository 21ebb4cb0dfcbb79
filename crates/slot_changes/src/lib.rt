//! Changes of a board's slots: messages appended in a place, each with a msgid, a message deleted, and all slots of a
//! place replaced.
#![tactic(auto)]

mod append;
mod delete;
mod fits;
mod msgid;
mod replace;
mod size;
mod slots;
mod value;

pub use append::{appended, identified};
pub use board_changes::{
    BoardChange, enrolled, fits_user, gather, intent_with, ledger_intent, made, size_with_user,
};
pub use delete::deleted;
pub use fits::{fits_deletion, fits_messages};
pub use msgid::{generated_len, msgid_of};
pub use replace::replaced;
pub use size::{message_size, size_with_messages};
pub use slots::fits_slots;
pub use value::{is_net, may_hold};
