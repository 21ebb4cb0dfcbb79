//! Numbers in records: unsigned, the low byte first.
#![tactic(auto)]

pub mod laws;
mod numbers;

pub use byte_lists::{Bytes, Duplicate, List};
pub use numbers::{u16_at, u32_at};
