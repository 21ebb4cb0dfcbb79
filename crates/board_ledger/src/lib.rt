//! A board's ledger: its setup, users and upload records in one file, exactly its layout, and the first damage
//! named.
#![tactic(auto)]

mod apart;
mod conferences;
mod damaged;
mod enroll_puts;
mod error;
pub mod laws;
mod ledger;
mod met;
mod opening;
mod read;
mod size;
mod upload;
mod upload_puts;
mod uploads;
mod user;
mod user_puts;
mod users;
mod write;

pub use enroll_puts::enroll_patches;
pub use error::LedgerError;
pub use ledger::{Ledger, UPLOAD_LIMIT, USER_LIMIT};
pub use open_offers::{Highs, Offers, OpenOffer};
pub use setup_file::{
    Conference, Conferences, Setup, SetupError, SetupFields, SetupRule, Zones, is_user_name,
};
pub use upload::{Counts, UPLOAD_SIZE, UploadRecord, Uploads, VERDICT_LIMIT};
pub use upload_puts::upload_patches;
pub use user::{User, Users, are_members};
pub use user_puts::user_patches;
