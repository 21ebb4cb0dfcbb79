// The slots of a conference after a change of them.
ghost use Rattle.std.specs.Prelude.{◌≡◌, ◌+◌, ◌≤◌, ◌<◌, ◌==◌, ◌^◌, length, map, sum_by, IfOk};
ghost use Rattle.jam_writing.specs.jam_layout.Conference.{is_live as is_live_of};
ghost use Rattle.jam_writing.specs.jam_layout.Limits.{slot_limit};
ghost use Rattle.jam_writing.specs.jam_layout.Sizes.{slot_header};
ghost use Rattle.jam_writing.specs.jam_layout.Bodies.{body_size};
ghost use Rattle.jam_writing.specs.jam_layout.Outlines.{message_outline};
ghost use Rattle.jam_base.specs.Slots.{slots_with_all, has_live as has_live_of, slot_deleted, slots_deleted};

use jam_records::{Duplicate, Messages, Slot};
use jam_writing::SharedSlots;
use std::alloc::{AllocError, Global};

/// The slots with the outlines of these messages at the end.
pub fn with_messages(
    alloc: Global,
    slots: &SharedSlots,
    messages: Messages,
) -> Result<SharedSlots, AllocError>
    requires few { length (slots_with_all slots.now (map message_outline messages)) ≤ slot_limit }
    requires headers { 1024 + sum_by slot_header (slots_with_all slots.now (map message_outline messages)) < 2 ^ 31 }
    requires bodies { sum_by body_size (slots_with_all slots.now (map message_outline messages)) < 2 ^ 31 }
    ensures { IfOk result (λ new. new ≡ slots_with_all slots.now (map message_outline messages)) }
{
    let mut longer = slots.copy(alloc)?;
    for message in messages.into_vec() {
        longer = longer.with_slot(alloc, Slot::Held(message))?;
    }
    Ok(longer)
}

/// Whether a slot holds a message that isn't deleted.
fn is_live(slot: &Slot) -> bool
    ensures { result ≡ is_live_of slot.now }
{
    match slot {
        Slot::Gone => false,
        Slot::Held(message) => !message.deleted,
    }
}

/// Whether a message number is that of a message that isn't deleted.
pub fn has_live(number: u32, slots: &SharedSlots) -> bool
    ensures { result ≡ has_live_of number slots.now }
{
    if number == 0 {
        return false;
    }
    match slots.get(number as usize - 1) {
        Some(slot) => is_live(slot),
        None => false,
    }
}

/// Marks the message in a slot deleted.
fn delete(slot: &mut Slot)
    ensures { slot.new ≡ slot_deleted slot.old }
{
    if let Slot::Held(message) = slot {
        message.deleted = true;
    }
}

/// A copy of a slot with its message marked deleted.
fn deleted(alloc: Global, slot: &Slot) -> Result<Slot, AllocError>
    ensures { IfOk result (λ new. new ≡ slot_deleted slot.now) }
{
    let mut copy = slot.duplicate(alloc)?;
    delete(&mut copy);
    Ok(copy)
}

/// The slots with the message of a number marked deleted.
pub fn with_deleted(
    alloc: Global,
    number: u32,
    slots: &SharedSlots,
) -> Result<SharedSlots, AllocError>
    requires above { 0 < number }
    requires within { number ≤ length slots.now }
    ensures { IfOk result (λ new. new ≡ slots_deleted number slots.now) }
{
    let place = number as usize - 1;
    let slot = deleted(alloc, slots.at(place))?;
    slots.copy(alloc)?.replaced(alloc, place, slot)
}
