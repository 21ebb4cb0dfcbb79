// Patches of the marks of messages in their headers.
ghost use Rattle.std.specs.Prelude.{◌≡◌, ◌+◌, ◌≤◌, ◌<◌, ◌++◌, ◌^◌, length, IfOk, OnOk};
ghost use Rattle.jam_base.specs.MarkPuts.{marks_text, marks_put, delete_put, delete_puts, receive_put, receive_puts};
ghost use Rattle.jam_base.specs.Slots.{numbered};

use crate::numbers::four_numbers;
use crate::receipt::{Receipt, is_due};
use intent_journal::{FileId, Patch, Patches};
use jam_records::{Bytes, Kind, Message, Slot};
use jam_writing::{Marks, SharedSlots, header_length};
use std::alloc::{AllocError, Global};

/// What changes of a message in place.
#[derive(Clone, Copy)]
pub struct Mark {
    received: u32,
    seen: bool,
    deleted: bool,
}

/// The bytes of a header from its DateReceived to its Attribute, once so much changes (JAM message base
/// proposal, revision 1).
fn marks_bytes(kind: Kind, number: u32, message: &Message, mark: Mark) -> [u8; 16]
    ensures { result ≡ marks_text kind number (record message.now { received = mark.received; seen = mark.seen; deleted = mark.deleted }) }
{
    let marks = Marks {
        local: message.local,
        private: message.private,
        seen: mark.seen,
        deleted: mark.deleted,
    };
    four_numbers(
        mark.received,
        message.processed,
        number,
        marks.attribute(kind),
    )
}

/// The patch of these bytes, where the header stands at a place in .JHR.
fn marks_patch(
    alloc: Global,
    place: u8,
    at: u32,
    kind: Kind,
    number: u32,
    message: &Message,
    mark: Mark,
) -> Result<Patch, AllocError>
    requires place { place < 64 }
    requires at { at < 2 ^ 31 }
    ensures { IfOk result (λ patch. patch ≡ marks_put kind place at number (record message.now { received = mark.received; seen = mark.seen; deleted = mark.deleted })) }
{
    let bytes = marks_bytes(kind, number, message, mark);
    Ok(Patch::Put {
        file: FileId::jhr(place),
        at: at + 40,
        bytes: Bytes::from_slice(alloc, &bytes)?,
    })
}

/// The patches that mark the message deleted that a slot of a number holds. Its header stands at a place in .JHR.
fn deletion_of(
    alloc: Global,
    place: u8,
    at: u32,
    kind: Kind,
    number: u32,
    slot: &Slot,
) -> Result<Patches, AllocError>
    requires place { place < 64 }
    requires at { at < 2 ^ 31 }
    ensures { IfOk result (λ patches. patches ≡ delete_put kind place at number slot.now) }
{
    let mut patches = Patches::new(alloc);
    if let Slot::Held(message) = slot {
        let mark = Mark {
            received: message.received,
            seen: message.seen,
            deleted: true,
        };
        patches.add(marks_patch(alloc, place, at, kind, number, message, mark)?)?;
    }
    Ok(patches)
}

/// The patches that mark the message of a number deleted.
pub fn delete_patches(
    alloc: Global,
    place: u8,
    kind: Kind,
    slots: &SharedSlots,
    number: u32,
) -> Result<Patches, AllocError>
    requires place { place < 64 }
    requires above { 0 < number }
    requires within { number ≤ length slots.now }
    ensures { IfOk result (λ patches. patches ≡ delete_puts kind place slots.now number (numbered slots.now number)) }
{
    let index = number as usize - 1;
    let at = slots.header_place(index);
    deletion_of(alloc, place, at, kind, number, slots.at(index))
}

/// Adds the patch that marks the message of a number read, where it is due. Its header stands at a place in
/// .JHR.
fn add_receipt(
    alloc: Global,
    patches: &mut Patches,
    place: u8,
    kind: Kind,
    name: &[u8],
    receipt: Receipt,
    at: u32,
    number: u32,
    slot: &Slot,
) -> Result<(), AllocError>
    requires place { place < 64 }
    requires at { at < 2 ^ 31 }
    ensures { OnOk result (patches.new ≡ patches.old ++ receive_put kind place name.now receipt at number slot.now) }
{
    let Slot::Held(message) = slot else {
        return Ok(());
    };
    if !is_due(name, receipt, number, message) {
        return Ok(());
    }
    let mark = Mark {
        received: receipt.now,
        seen: true,
        deleted: message.deleted,
    };
    patches.add(marks_patch(alloc, place, at, kind, number, message, mark)?)
}

/// The patches that mark the messages read that are due.
pub fn receive_patches(
    alloc: Global,
    place: u8,
    kind: Kind,
    name: &[u8],
    receipt: Receipt,
    slots: &SharedSlots,
) -> Result<Patches, AllocError>
    requires { place < 64 }
    ensures { IfOk result (λ patches. patches ≡ receive_puts kind place name.now receipt 1024 1 slots.now) }
{
    let mut patches = Patches::new(alloc);
    let count = slots.len();
    let first = receipt.start(count);
    let last = receipt.end(count);
    let mut at = slots.header_place(first);
    for index in first..last {
        let number = index as u32 + 1;
        let slot = slots.at(index);
        add_receipt(
            alloc,
            &mut patches,
            place,
            kind,
            name,
            receipt,
            at,
            number,
            slot,
        )?;
        at += header_length(slot);
    }
    Ok(patches)
}
