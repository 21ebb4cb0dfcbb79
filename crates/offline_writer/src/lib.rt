//! The caller's side of a reply packet: replies to messages of a QWK packet and messages of a sheet, as they
//! go into a reply packet.
#![tactic(auto)]

mod composing;
mod drafting;
mod fault;
mod fitting;
mod placing;
mod replying;
mod stored_text;

pub use composing::{compose, draft_entries, listed_conference};
pub use drafting::Envelope;
pub use fault::{ComposeError, DraftError, ReplyError};
pub use placing::add_drafts;
pub use replying::{draft_reply, message_at, reply_to};
