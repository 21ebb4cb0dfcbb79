//! The records of a JAM message base (JAM message base proposal, revision 1), to values and back, and
//! the messages that they hold.
#![tactic(auto)]

mod address;
mod base_header;
mod damage;
mod error;
mod index_record;
mod last_read;
pub mod laws;
mod message;
mod message_header;
mod signature;
mod subfield;
mod subfield_reader;

pub use address::address_text;
pub use base_header::{BaseHeader, read_base_header, write_base_header};
pub use damage::{Damage, DamageRule};
pub use error::{RecordError, SubfieldError};
pub use index_record::{IndexRecord, read_index, write_index};
pub use last_read::{LastRead, read_last, write_last};
pub use message::{Kind, Message, Messages, Slot, Slots};
pub use message_header::{MessageHeader, read_message_header, write_message_header};
pub use record_numbers::{Bytes, Duplicate, List, u16_at, u32_at};
pub use subfield::{Subfield, Subfields, add_subfield, write_subfields};
pub use subfield_reader::read_subfields;
