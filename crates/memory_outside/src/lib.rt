//! Hosts and shelves in memory, which tell everything and count their calls. A plan has calls of theirs fail,
//! and a host can be made anew on an image that a crash may leave of it.
#![tactic(auto)]

mod calls;
mod content;
mod contents;
mod draws;
mod event;
mod image;
mod memory_host;
mod memory_shelf;
mod pieces;
mod plan;
mod tears;

pub use image::ImageChoice;
pub use memory_host::MemoryHost;
pub use memory_shelf::MemoryShelf;
pub use plan::{CallNumbers, FaultPlan};
