// What a slot has in the files of its conference.
ghost use Rattle.std.specs.Prelude.{◌≡◌, ◌<◌, ◌^◌, [], drop, slice_index};
ghost use Rattle.jam_layout.specs.Sizes.{slot_header};
ghost use Rattle.jam_layout.specs.Bare.{first_length, other_lengths};
ghost use Rattle.jam_layout.specs.Bodies.{body_size, message_with};
ghost use Rattle.jam_layout.specs.Outlines.{slot_bare};
ghost use Rattle.shared_slots.specs.Kept.{one_live};

use jam_layout::header_size;
use jam_records::{Bytes, Message, Slot};
use std::alloc::Global;

/// How many bytes the header of what a slot holds has, with its subfields.
pub fn header_length(slot: &Slot) -> u32
    requires { slot_header slot.now < 2 ^ 31 }
    ensures { result ≡ slot_header slot.now }
{
    match slot {
        Slot::Gone => 0,
        Slot::Held(message) => header_size(message),
    }
}

/// How many bytes the body of what a slot holds has.
pub(crate) fn body_length(slot: &Slot) -> u32
    requires { body_size slot.now < 2 ^ 31 }
    ensures { result ≡ body_size slot.now }
{
    match slot {
        Slot::Gone => 0,
        Slot::Held(message) => message.body.as_slice().len() as u32,
    }
}

/// The first of these lengths, or 0 where there are none, and the others.
fn first_of(lengths: &[u32]) -> (u32, &[u32])
    ensures first { result.0 ≡ slice_index lengths.now 0 }
    ensures others { result.1.now ≡ drop 1 lengths.now }
{
    if let [first, others @ ..] = lengths {
        return (*first, others);
    }
    (0, lengths)
}

/// Of the lengths of the bodies of a slot and of those behind it, that of the slot, and the others.
pub(crate) fn next_length<'a>(slot: &Slot, lengths: &'a [u32]) -> (u32, &'a [u32])
    ensures first { result.0 ≡ first_length lengths.now slot.now }
    ensures others { result.1.now ≡ other_lengths lengths.now slot.now }
{
    match slot {
        Slot::Gone => (0, lengths),
        Slot::Held(_) => first_of(lengths),
    }
}

/// How many messages of a slot aren't deleted.
pub(crate) fn live_in(slot: &Slot) -> u32
    ensures { result ≡ one_live slot.now }
{
    match slot {
        Slot::Gone => 0,
        Slot::Held(message) => u32::from(!message.deleted),
    }
}

/// A message without its body, which is dropped.
fn bare(alloc: Global, message: Message) -> Message
    ensures { result ≡ message_with message [] }
{
    let mut bare = message;
    bare.body = Bytes::new(alloc);
    bare
}

/// A slot without the body of what it holds, which is dropped.
pub(crate) fn without_body(alloc: Global, slot: Slot) -> Slot
    ensures { result ≡ slot_bare slot }
{
    match slot {
        Slot::Gone => Slot::Gone,
        Slot::Held(message) => Slot::Held(bare(alloc, message)),
    }
}
