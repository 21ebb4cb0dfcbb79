//! Changes of a board by what a user is offered: a packet more is offered, and its offer is acknowledged.
#![tactic(auto)]

mod acknowledge;
mod fits;
mod offer;
mod user;

pub use acknowledge::acknowledged;
pub use fits::{fits_acknowledgement, fits_offer};
pub use offer::offered;
