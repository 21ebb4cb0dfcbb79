//! One conference over its four JAM files, without its bodies: read exactly where they are its layout, and changed with them.
#![tactic(auto)]

mod acknowledged;
mod base;
mod change;
pub mod laws;
mod linked;
mod marks;
mod numbers;
mod pointers;
mod read;
mod receipt;
mod refusal;
mod replaced;
mod slots;
mod span;

pub use base::Base;
pub use change::BaseChange;
pub use jam_writing::{
    BaseError, BaseFiles, ConferenceContents, Reader, Readers, SLOT_LIMIT, Shape, typed,
};
pub use read::read_base;
pub use refusal::{AppendRefusal, KillRefusal};
pub use span::Span;
