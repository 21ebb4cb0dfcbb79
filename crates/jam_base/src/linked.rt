// The links that messages at the end of a conference change in the headers of older ones.
ghost use Rattle.std.specs.Prelude.{◌≡◌, ◌+◌, ◌≤◌, ◌<◌, List, [], ◌∷◌, ◌++◌, ◌^◌, length, Some, IfOk, OnOk};
ghost use Rattle.intent_journal.specs.declared.patch.Patch.{Patch};
ghost use Rattle.intent_journal.specs.door_outside.File.{jhr_file};
ghost use Rattle.jam_writing.specs.jam_layout.Limits.{slot_limit};
ghost use Rattle.jam_records.specs.record_numbers.Numbers.{u32_text};
ghost use Rattle.jam_records.specs.declared.message.Slot.{Slot as SlotOf};
ghost use Rattle.jam_records.specs.declared.message.Slot.TheVariants.{Held};
ghost use Rattle.jam_threads.specs.LinkChanges.{link_change};
ghost use Rattle.jam_threads.specs.Threading.{AreThreads, AreOfSlots};
ghost use Rattle.jam_base.specs.Places.{header_place as place_of_header, field_place as place_of_field};
ghost use Rattle.jam_base.specs.Puts.{link_put, link_puts};
ghost use Rattle.jam_base.specs.Slots.{slots_with_all};

use crate::numbers::one_number;
use intent_journal::{FileId, Patch, Patches};
use jam_records::{Bytes, Message};
use jam_threads::{LinkField, LinkPatch, Threads};
use jam_writing::SharedSlots;
use std::alloc::{AllocError, Global};

/// Where a link number stands in a header (JAM message base proposal, revision 1).
fn field_place(field: LinkField) -> u32
    ensures { result ≡ place_of_field field }
{
    match field {
        LinkField::First => 28,
        LinkField::Next => 32,
    }
}

/// The patch of a link number of one of the slots.
fn patch_of(
    alloc: Global,
    place: u8,
    slots: &SharedSlots,
    link: LinkPatch,
) -> Result<Patch, AllocError>
    requires place { place < 64 }
    requires some { 0 < link.number }
    requires within { link.number ≤ length slots.now }
    ensures { IfOk result (λ patch. patch ≡ Patch.Put (jhr_file place) (place_of_header slots.now link.number + place_of_field link.field) (u32_text link.value)) }
{
    let at = slots.header_place(link.number as usize - 1);
    Ok(Patch::Put {
        file: FileId::jhr(place),
        at: at + field_place(link.field),
        bytes: Bytes::from_slice(alloc, &one_number(link.value))?,
    })
}

/// Adds the patch of a link number, where it is of one of the slots.
fn add_link(
    alloc: Global,
    patches: &mut Patches,
    place: u8,
    slots: &SharedSlots,
    link: LinkPatch,
) -> Result<(), AllocError>
    requires place { place < 64 }
    requires some { 0 < link.number }
    ensures { OnOk result (patches.new ≡ patches.old ++ link_put place slots.now (Some link)) }
{
    if link.number as usize > slots.len() {
        return Ok(());
    }
    patches.add(patch_of(alloc, place, slots, link)?)
}

/// Adds a message at the end of the threads, and the patch of the link number that it changes, where that is
/// of one of the old slots.
fn add_message(
    alloc: Global,
    patches: &mut Patches,
    place: u8,
    slots: &SharedSlots,
    threads: &mut Threads,
    message: &Message,
) -> Result<(), AllocError>
    requires place { place < 64 }
    requires threads { AreOfSlots threads.old }
    requires few { (now : List SlotOf) → AreThreads now threads.old → length now + 2 < 2 ^ 32 }
    ensures patches { OnOk result ((now : List SlotOf) → AreThreads now threads.old → patches.new ≡ patches.old ++ link_put place slots.now (link_change now message.now.replyid)) }
    ensures threads { OnOk result ((now : List SlotOf) → AreThreads now threads.old → AreThreads (now ++ Held message.now ∷ []) threads.new) }
{
    let replyid = message.replyid.as_slice();
    if let Some(link) = threads.link_new(replyid) {
        add_link(alloc, patches, place, slots, link)?;
    }
    threads.add(message.msgid.as_slice(), replyid)
}

/// Adds messages at the end of the threads of slots, and answers the patches of the link numbers that these
/// change in the headers of the slots.
pub fn add_messages(
    alloc: Global,
    place: u8,
    slots: &SharedSlots,
    threads: &mut Threads,
    messages: &[Message],
) -> Result<Patches, AllocError>
    requires place { place < 64 }
    requires threads { AreThreads slots.now threads.old }
    requires few { length slots.now + length messages.now ≤ slot_limit }
    ensures patches { IfOk result (λ patches. patches ≡ link_puts place slots.now slots.now messages.now) }
    ensures threads { OnOk result (AreThreads (slots_with_all slots.now messages.now) threads.new) }
{
    let mut patches = Patches::new(alloc);
    for message in messages {
        add_message(alloc, &mut patches, place, slots, threads, message)?;
    }
    Ok(patches)
}
