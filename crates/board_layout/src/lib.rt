//! The data files of a board: exactly its layout over all 257, read with the first damage named.
#![tactic(auto)]

mod bases;
mod board;
mod damaged;
mod error;
mod files;
mod highs;
pub mod laws;
mod limit;
mod lookups;
mod parts;
mod read;
mod rest;
mod shape;
mod sizes;

pub use board::{BOARD_LIMIT, Bases, StoredBoard};
pub use error::ReadError;
pub use highs::{highs_fit, offers_fit};
pub use jam_base::{Base, BaseChange, KillRefusal, SLOT_LIMIT, Span, typed};
pub use lookups::message_of;
pub use read::{FoundBoard, read_board};
pub use shape::shape_at;
