//! Moments as QWK packets write them: a date field, a time field and the stamp of CONTROL.DAT, in UTC.
#![tactic(auto)]

mod civil_date;
mod digits;
mod fields;
pub mod laws;
mod reading;

pub use digits::number_of_two;
pub use fields::{date_field, stamp, time_field};
pub use reading::read_moment;
