//! Import sheets: text files of messages, each as header lines, an empty line, body lines and a line
//! of one dot.
#![tactic(auto)]

mod body;
mod fault;
mod field;
mod found;
mod headers;
pub mod laws;
mod read;
mod sheet;
mod unread;
mod value;

pub use fault::{SheetError, SheetRule};
pub use read::read_sheet;
pub use sheet::{Sheet, Sheets};
