// What the slots from a place on, from 0, give to the files of their conference.
ghost use Rattle.std.specs.Prelude.{◌≡◌, ◌+◌, ◌≤◌, ◌<◌, ◌^◌, length, take, drop, sum_by, IfOk};
ghost use Rattle.jam_layout.specs.jam_threads.Links.{link_of};
ghost use Rattle.jam_layout.specs.jam_threads.Threading.{AreThreads};
ghost use Rattle.jam_layout.specs.Headers.{headers_text};
ghost use Rattle.jam_layout.specs.Index.{index_records};
ghost use Rattle.jam_layout.specs.Layout.{entries_of};
ghost use Rattle.jam_layout.specs.Limits.{slot_limit};
ghost use Rattle.jam_layout.specs.Sizes.{slot_header};
ghost use Rattle.jam_writing.specs.Pieces.{body_size};

use crate::jdx::add_slot as add_record;
use crate::jhr::add_slot as add_slot_header;
use jam_layout::Threads;
use jam_records::{Bytes, Kind};
use shared_slots::SharedSlots;
use std::alloc::{AllocError, Global};

/// The headers of the messages from a place on, whose bodies begin at an offset in .JDT. The threads are those of
/// all slots.
///
/// The error comes where there is no memory.
pub fn write_last_headers(
    alloc: Global,
    kind: Kind,
    slots: &SharedSlots,
    threads: &Threads,
    from: usize,
    offset: u32,
) -> Result<Bytes, AllocError>
    requires threads { AreThreads slots.now threads.now }
    requires few { length slots.now ≤ slot_limit }
    requires within { from ≤ length slots.now }
    requires headers { sum_by slot_header slots.now < 2 ^ 31 }
    requires bodies { sum_by body_size slots.now < 2 ^ 31 }
    requires offset { offset ≡ sum_by body_size (take from slots.now) }
    ensures { IfOk result (λ text. text ≡ headers_text kind offset (entries_of (link_of slots.now) (from + 1) (drop from slots.now))) }
{
    let mut text = Bytes::new(alloc);
    let mut at = offset;
    for place in from..slots.len() {
        let link = threads.link(place);
        let number = place as u32 + 1;
        let length = slots.body_length(place);
        let slot = slots.at(place);
        at = add_slot_header(&mut text, kind, number, at, length, link, slot)?;
    }
    Ok(text)
}

/// The records of the slots from a place on, where the first header stands at a place in .JHR.
///
/// The error comes where there is no memory.
pub fn write_last_records(
    alloc: Global,
    slots: &SharedSlots,
    from: usize,
    first: u32,
) -> Result<Bytes, AllocError>
    requires within { from ≤ length slots.now }
    requires small { 1024 + sum_by slot_header slots.now < 2 ^ 31 }
    requires first { first ≡ 1024 + sum_by slot_header (take from slots.now) }
    ensures { IfOk result (λ text. text ≡ index_records first (drop from slots.now)) }
{
    let mut text = Bytes::new(alloc);
    let mut at = first;
    for place in from..slots.len() {
        at = add_record(&mut text, at, slots.at(place))?;
    }
    Ok(text)
}
