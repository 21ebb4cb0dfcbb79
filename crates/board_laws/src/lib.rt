//! Laws over the entries that a board was given, over many runs and what crashes between them leave.
#![tactic(auto)]

pub mod laws;

pub use cmd_adopt::adopt;
pub use cmd_exchange::{AcknowledgedLine, PacketLine, UploadedText, ack, export, upload};
pub use cmd_messages::{ImportedLine, KilledLine, SampledLine, import, kill, sample};
pub use cmd_pack::{PackedLine, pack};
pub use cmd_toss::toss;
