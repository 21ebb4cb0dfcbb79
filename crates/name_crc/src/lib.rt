//! The CRC by which a JAM message base knows a name or a message id.
#![tactic(auto)]

mod crc;
mod table;

pub use crc::name_crc;
