//! How the damage of a file is stated: the rules of a record in their order, records one after the other,
//! and reading that stops at the first rule that is broken. Definitions and lemmas alone, for the crates that
//! read a file of the board.
#![tactic(auto)]

pub use jam_records::{Damage, DamageRule};
