//! The commands by which a caller's mail is exchanged: a packet is exported and acknowledged, and the messages of a
//! reply packet are posted.
#![tactic(auto)]

mod acknowledging;
mod exporting;
mod lines;
mod saying;
mod uploading;

pub use acknowledging::ack;
pub use door_export::Exported;
pub use door_upload::Uploaded;
pub use exporting::export;
pub use lines::{AcknowledgedLine, PacketLine, UploadedText};
pub use uploading::upload;
