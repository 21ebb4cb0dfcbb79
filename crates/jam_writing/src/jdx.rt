ghost use Rattle.std.specs.Prelude.{◌≡◌, ◌+◌, ◌++◌, ◌<◌, ◌^◌, IfOk, OnOk};
ghost use Rattle.jam_layout.specs.Index.{pair_of};
ghost use Rattle.jam_layout.specs.Sizes.{slot_header};
ghost use Rattle.jam_writing.specs.Pieces.{index_piece};

use jam_layout::{header_size, name_crc};
use jam_records::{Bytes, IndexRecord, Message, Slot, write_index};
use std::alloc::AllocError;

/// The record of a number that no message has.
const NO_MESSAGE: IndexRecord = IndexRecord {
    to_crc: 0xFFFF_FFFF,
    offset: 0xFFFF_FFFF,
};

/// The record of a message whose header stands at a place in .JHR.
fn record_of(message: &Message, at: u32) -> IndexRecord
    ensures { result ≡ pair_of message.now at }
{
    IndexRecord {
        to_crc: name_crc(message.to.as_slice()),
        offset: at,
    }
}

/// Adds the record of a slot, where the next header stands at a place in .JHR, and answers where the one
/// after it does.
pub(crate) fn add_slot(jdx: &mut Bytes, at: u32, slot: &Slot) -> Result<u32, AllocError>
    requires { at + slot_header slot.now < 2 ^ 31 }
    ensures text { OnOk result (jdx.new ≡ jdx.old ++ index_piece at slot.now) }
    ensures next { IfOk result (λ next. next ≡ at + slot_header slot.now) }
{
    match slot {
        Slot::Gone => {
            jdx.add(&write_index(&NO_MESSAGE))?;
            Ok(at)
        }
        Slot::Held(message) => {
            jdx.add(&write_index(&record_of(message, at)))?;
            Ok(at + header_size(message))
        }
    }
}
