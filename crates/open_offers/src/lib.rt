//! The open offers of a user as a ledger's file has them, in either version of it, and the texts and numbers of its
//! records.
#![tactic(auto)]

mod cells;
mod offer;
mod texts;
mod version;

pub use cells::{
    add_cells, cells_behind, is_in_set, members_at, open_in, right_cells, size_behind_last,
};
pub use offer::{Highs, Offers, OpenOffer};
pub use texts::{add_byte, add_text, add_u16, add_u32, add_u64, text_at, text_end, u16s_at};
pub use version::Version;
