ghost use Rattle.std.specs.Prelude.{◌≡◌, ◌+◌, ◌++◌, ◌<◌, ◌^◌, IfOk, OnOk};
ghost use Rattle.jam_layout.specs.Outlines.{slot_with};
ghost use Rattle.jam_layout.specs.Sizes.{slot_header};
ghost use Rattle.jam_writing.specs.Pieces.{header_piece, body_size};

use crate::header::add_header;
use jam_layout::Link;
use jam_records::{Bytes, Kind, Slot};
use std::alloc::AllocError;

/// Adds the header of what a slot holds, whose body has so many bytes, and answers where the next body begins.
pub(crate) fn add_slot(
    jhr: &mut Bytes,
    kind: Kind,
    number: u32,
    offset: u32,
    length: u32,
    link: Link,
    slot: &Slot,
) -> Result<u32, AllocError>
    requires header { slot_header slot.now < 2 ^ 31 }
    requires body { offset + length < 2 ^ 31 }
    ensures text { OnOk result (jhr.new ≡ jhr.old ++ header_piece kind offset number link (slot_with length slot.now)) }
    ensures next { IfOk result (λ next. next ≡ offset + body_size (slot_with length slot.now)) }
{
    match slot {
        Slot::Gone => Ok(offset),
        Slot::Held(message) => {
            add_header(jhr, kind, number, offset, length, link, message)?;
            Ok(offset + length)
        }
    }
}
