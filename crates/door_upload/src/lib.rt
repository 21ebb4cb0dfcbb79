//! A caller's reply packet: its accepted messages are posted once per user and digest.
#![tactic(auto)]

mod answer;
pub mod laws;
mod preparing;
mod uploading;

pub use answer::{UploadError, Uploaded};
pub use packet_verdicts::{Outcome, Outcomes};
pub use uploading::upload;
