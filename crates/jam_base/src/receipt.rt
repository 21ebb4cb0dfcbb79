ghost use Rattle.std.specs.Prelude.{◌≡◌, ◌+◌, ◌<◌, ◌≤◌, min, length, slice_index_or, slice_set, unwrap_or, IfOk};
ghost use Rattle.jam_writing.specs.jam_layout.Limits.{slot_limit};
ghost use Rattle.jam_base.specs.Slots.{is_due as is_due_of, has_due as has_due_of, any_due as any_due_of, slot_received, slots_received as received_of};

use jam_records::{Duplicate, Message, Slot};
use jam_writing::SharedSlots;
use std::alloc::{AllocError, Global};

/// Which messages to a name are received, and when.
#[derive(Debug, Clone, Copy)]
pub struct Receipt {
    /// Their message numbers are above this one.
    pub above: u32,
    /// Their message numbers are at most this one.
    pub upto: u32,
    /// The moment, in Unix seconds.
    pub now: u32,
}

impl Receipt {
    /// The place, from 0, of the first of so many slots whose number is above the one bound, or how many there are.
    pub(crate) fn start(self, count: usize) -> usize
        ensures { result ≡ min self.above count }
    {
        (self.above as usize).min(count)
    }

    /// The place, from 0, behind the last of so many slots whose number is at most the other bound.
    pub(crate) fn end(self, count: usize) -> usize
        ensures { result ≡ min self.upto count }
    {
        (self.upto as usize).min(count)
    }
}

/// Whether the message of a number is to the name, isn't deleted, isn't read and is within the bounds.
pub(crate) fn is_due(name: &[u8], receipt: Receipt, number: u32, message: &Message) -> bool
    ensures { result ≡ is_due_of name.now receipt number message.now }
{
    let to_name = message.to.as_slice().eq_ignore_ascii_case(name);
    let within = receipt.above < number && number <= receipt.upto;
    to_name && (!message.deleted && !message.seen) && within
}

/// Whether a slot holds such a message.
fn has_due(name: &[u8], receipt: Receipt, number: u32, slot: &Slot) -> bool
    ensures { result ≡ has_due_of name.now receipt number slot.now }
{
    match slot {
        Slot::Gone => false,
        Slot::Held(message) => is_due(name, receipt, number, message),
    }
}

/// Whether the slot in a place from 0 holds such a message.
fn has_due_in(name: &[u8], receipt: Receipt, place: usize, slots: &SharedSlots) -> bool
    requires place { place < length slots.now }
    requires few { length slots.now ≤ slot_limit }
    ensures { result ≡ has_due_of name.now receipt (place + 1) (slice_index_or slots.now place Slot.Gone) }
{
    has_due(name, receipt, place as u32 + 1, slots.at(place))
}

/// Whether one of the slots holds such a message.
pub fn any_due(name: &[u8], receipt: Receipt, slots: &SharedSlots) -> bool
    ensures { result ≡ any_due_of name.now receipt 1 slots.now }
{
    let count = slots.len();
    let first = receipt.start(count);
    let last = receipt.end(count);
    for place in first..last {
        if has_due_in(name, receipt, place, slots) {
            return true;
        }
    }
    false
}

/// A copy of a slot that holds such a message, in which it is marked read at the moment, or None for another slot.
fn received(
    alloc: Global,
    name: &[u8],
    receipt: Receipt,
    number: u32,
    slot: &Slot,
) -> Result<Option<Slot>, AllocError>
    ensures { IfOk result (λ new. slot_received name.now receipt number slot.now ≡ unwrap_or new slot.now) }
{
    let Slot::Held(message) = slot else {
        return Ok(None);
    };
    if !is_due(name, receipt, number, message) {
        return Ok(None);
    }
    let mut copy = message.duplicate(alloc)?;
    copy.seen = true;
    copy.received = receipt.now;
    Ok(Some(Slot::Held(copy)))
}

/// The slots, in which such a message in a place from 0 is marked read at the moment.
fn received_at(
    alloc: Global,
    name: &[u8],
    receipt: Receipt,
    place: usize,
    slots: SharedSlots,
) -> Result<SharedSlots, AllocError>
    requires place { place < length slots }
    requires few { length slots ≤ slot_limit }
    ensures { IfOk result (λ new. new ≡ slice_set slots place (slot_received name.now receipt (place + 1) (slice_index_or slots place Slot.Gone))) }
{
    match received(alloc, name, receipt, place as u32 + 1, slots.at(place))? {
        None => Ok(slots),
        Some(slot) => slots.replaced(alloc, place, slot),
    }
}

/// The slots, in which each such message is marked read at the moment.
pub fn slots_received(
    alloc: Global,
    name: &[u8],
    receipt: Receipt,
    slots: &SharedSlots,
) -> Result<SharedSlots, AllocError>
    ensures { IfOk result (λ new. new ≡ received_of name.now receipt 1 slots.now) }
{
    let count = slots.len();
    let first = receipt.start(count);
    let last = receipt.end(count);
    let mut new = slots.copy(alloc)?;
    for place in first..last {
        new = received_at(alloc, name, receipt, place, new)?;
    }
    Ok(new)
}
