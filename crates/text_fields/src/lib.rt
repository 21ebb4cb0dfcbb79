//! The rules that the text formats of the door share: blanks around a field, digits, and lines that
//! end at a line feed.
#![tactic(auto)]

mod blank;
mod digits;
pub mod laws;
mod lines;
mod number;
mod split;
mod trim;
mod unread;

pub use blank::Blank;
pub use byte_lists::{Bytes, Duplicate, Lines, List};
pub use digits::{add_decimal, digits_of};
pub use lines::{add_line, is_skipped, lines_of, next_line};
pub use number::number_of;
pub use split::split_at_byte;
pub use trim::{trimmed, trimmed_end};
pub use unread::Unread;
