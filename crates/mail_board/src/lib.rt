//! A bulletin board over a host: loaded, made and changed, each change whole or not at all.
#![tactic(auto)]

mod board;
mod bodies;
mod change;
mod fits;
mod loading;
mod making;
mod messages;
mod migrating;
mod readers;
mod replace;

pub use board::Board;
pub use board_layout::{ReadError, ReadError as LoadError};
pub use change::{Change, ChangeError};
pub use intent_journal::JournalError;
pub use loading::Loaded;
pub use post_changes::{Post, Posts};
