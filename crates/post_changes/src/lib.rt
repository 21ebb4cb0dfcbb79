//! Changes of a board by messages at the ends of several conferences, with or without the record of an upload.
#![tactic(auto)]

mod fits;
mod place;
mod post;
mod record;
mod size;
mod upload;

pub use fits::{fits_posts, fits_upload};
pub use post::{Post, Posts, spread};
pub use size::{size_with_posts, size_with_upload};
pub use slot_changes::{
    BoardChange, appended, deleted, enrolled, fits_deletion, fits_messages, fits_slots, fits_user,
    generated_len, is_net, ledger_intent, made, message_size, msgid_of, replaced,
    size_with_messages, size_with_user,
};
pub use upload::uploaded;
