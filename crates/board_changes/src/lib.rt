//! Changes of a whole board: each gives what of the next board is new, and one intent that makes its files.
#![tactic(auto)]

mod base;
mod change;
mod copy;
mod enroll;
mod fits;
mod gathering;
mod make;
mod size;

pub use base::with_base;
pub use change::BoardChange;
pub use enroll::enrolled;
pub use fits::fits_user;
pub use gathering::{add_all, gather, intent_with, ledger_intent};
pub use make::{NewBoard, made};
pub use size::size_with_user;
