//! A caller's mail: what is offered is exported as a packet, and exported again until it is acknowledged.
#![tactic(auto)]

mod acknowledging;
mod exporting;
mod fetching;
mod folder;
pub mod laws;
mod offering;
mod reader;

pub use acknowledging::{AckError, acknowledge};
pub use exporting::{ExportError, Exported, export};
pub use offering::offered;
