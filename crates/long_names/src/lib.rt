//! Names and subjects that are longer than the 25 bytes of their fields in QWK: they go as lines before the text of
//! a message. Lee's layout of 1992 knows nothing of it; it is this project's own rule, and any reader shows the lines.
#![tactic(auto)]

mod header;
pub mod laws;
mod lead;
mod line_field;
mod reading;
mod value;
mod writing;

pub use line_field::LineField;
pub use reading::{plain, reads_as_is};
pub use value::{is_long, short_form};
pub use writing::{goes_as_is, with_long};
