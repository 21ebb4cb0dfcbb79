//! The rules of messages that callers upload: address lines of net mail, and the verdict on a message.
#![tactic(auto)]

mod address;
mod draft;
pub mod laws;
mod net_line;
mod rule;
mod rules;
mod size;
mod status;
mod verdict;
mod view;

pub use address::Address;
pub use net_line::{NetLine, address_line};
pub use rule::Rule;
pub use size::new_bytes;
pub use verdict::{Verdict, judge};
pub use view::{ConferenceView, View};
