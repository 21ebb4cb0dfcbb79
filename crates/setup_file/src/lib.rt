//! Setup files: the text of lines that a board is made of, and the rules of texts, zones and conferences
//! that its ledger shares.
#![tactic(auto)]

mod conference;
mod conference_line;
mod error;
mod fields;
mod head;
mod key;
pub mod laws;
mod parse;
mod setup;
mod texts;
mod unread;
mod word;
mod zones;
mod zones_line;

pub use conference::{Conference, Conferences};
pub use error::{SetupError, SetupRule};
pub use fields::SetupFields;
pub use setup::Setup;
pub use texts::{is_bbsid, is_board_text, is_conference_name, is_user_name};
pub use zones::{Zones, are_zones};
