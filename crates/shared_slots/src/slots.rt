ghost use Rattle.std.specs.Prelude.{◌≡◌, ◌+◌, ◌≤◌, ◌<◌, ◌^◌, [], ◌∷◌, ◌++◌, length, map, take, sum_by, slice_get, slice_index_or, slice_set, IfOk};
ghost use Rattle.std.specs.Option.{option_copied};
ghost use Rattle.jam_layout.specs.Conference.{live_count};
ghost use Rattle.jam_layout.specs.Limits.{slot_limit};
ghost use Rattle.jam_layout.specs.Sizes.{slot_header};
ghost use Rattle.jam_layout.specs.Bodies.{body_size};
ghost use Rattle.jam_layout.specs.Bare.{filled_slots};
ghost use Rattle.jam_layout.specs.Outlines.{slot_bare, slot_outline, slot_with};
ghost use Rattle.shared_slots.specs.Kept.{slot_as_long};

use crate::sizes::{body_length, header_length, live_in, next_length, without_body};
use jam_layout::{Shared, SharedList};
use jam_records::{Duplicate, Slot, Slots};
use std::alloc::{AllocError, Global};
use std::marker::Model;

/// The slots of a conference, at most 9,999, whose copies share them, with what a change of one slot would else go
/// over all for. No bodies of messages are kept, but how long they are: contracts see the outline of the slots, in order.
/// Their headers with that of the base have fewer than 2^31 bytes, and so have their bodies.
#[derive(Debug, Drop)]
pub struct SharedSlots {
    /// Each with an empty body, where it holds a message.
    slots: SharedList<Shared<Slot>>,
    /// Where in .JHR the header of each slot stands or would stand, and where the last ends.
    headers: SharedList<u32>,
    /// Where in .JDT the body of each slot begins or would begin, and where the last ends.
    bodies: SharedList<u32>,
    /// How many messages aren't deleted.
    live: u32,
}

impl Model for SharedSlots {
    ghost use Rattle.std.specs.Prelude.{List};
    ghost use Rattle.jam_records.specs.declared.message.Slot.{Slot};
    ghost use Rattle.shared_slots.specs.Kept.{slots_between, AreKept};

    ghost Value = { List Slot };

    ghost view = { λ s. slots_between s.bodies s.slots };

    ghost invariant = { λ s. AreKept (slots_between s.bodies s.slots) s.slots s.headers s.bodies s.live };
}

/// A list of one number.
fn one_place(alloc: Global, place: u32) -> Result<SharedList<u32>, AllocError>
    ensures { IfOk result (λ places. places ≡ place ∷ []) }
{
    let mut places = SharedList::new(alloc);
    places.add(alloc, place)?;
    Ok(places)
}

impl SharedSlots {
    /// No slots.
    ///
    /// The error comes where there is no memory.
    pub fn new(alloc: Global) -> Result<SharedSlots, AllocError>
        ensures { IfOk result (λ slots. slots ≡ []) }
    {
        Ok(SharedSlots {
            slots: SharedList::new(alloc),
            headers: one_place(alloc, 1024)?,
            bodies: one_place(alloc, 0)?,
            live: 0,
        })
    }

    /// These slots, which are moved, where the bodies of their messages have these lengths, in order.
    ///
    /// The error comes where there is no memory.
    pub fn from_bare(
        alloc: Global,
        slots: Slots,
        lengths: &[u32],
    ) -> Result<SharedSlots, AllocError>
        requires few { length slots ≤ slot_limit }
        requires headers { 1024 + sum_by slot_header slots < 2 ^ 31 }
        requires bodies { sum_by body_size (filled_slots lengths.now slots) < 2 ^ 31 }
        ensures { IfOk result (λ shared. shared ≡ filled_slots lengths.now slots) }
    {
        let mut shared = SharedSlots::new(alloc)?;
        let mut rest = lengths;
        for slot in slots.into_vec() {
            let (size, others) = next_length(&slot, rest);
            shared = shared.with_bare(alloc, slot, size)?;
            rest = others;
        }
        Ok(shared)
    }

    /// How many slots there are.
    pub fn len(&self) -> usize
        ensures count { result ≡ length self.now }
        ensures few { length self.now ≤ slot_limit }
        ensures outline { map slot_outline self.now ≡ self.now }
    {
        self.slots.len()
    }

    /// The slot in a place from 0, with an empty body, or None past the last.
    pub fn get(&self, place: usize) -> Option<&Slot>
        ensures { option_copied result ≡ slice_get (map slot_bare self.now) place }
    {
        match self.slots.get(place) {
            None => None,
            Some(slot) => Some(slot.get()),
        }
    }

    /// The slot in a place from 0, with an empty body.
    pub fn at(&self, place: usize) -> &Slot
        requires { place < length self.now }
        ensures { result.now ≡ slice_index_or (map slot_bare self.now) place result.now }
    {
        self.slots.at(place).get()
    }

    /// How many messages aren't deleted.
    pub fn live_count(&self) -> u32
        ensures { result ≡ live_count self.now }
    {
        self.live
    }

    /// Where in .JHR the header of the slot in a place from 0 stands, or would stand; for the place behind the last
    /// slot, where the last header ends.
    pub fn header_place(&self, place: usize) -> u32
        requires { place ≤ length self.now }
        ensures place { result ≡ 1024 + sum_by slot_header (take place self.now) }
        ensures small { 1024 + sum_by slot_header self.now < 2 ^ 31 }
        ensures within { result ≤ 1024 + sum_by slot_header self.now }
    {
        *self.headers.at(place)
    }

    /// Where in .JDT the body of the slot in a place from 0 begins, or would begin; for the place behind the last
    /// slot, where the last body ends.
    pub fn body_place(&self, place: usize) -> u32
        requires { place ≤ length self.now }
        ensures place { result ≡ sum_by body_size (take place self.now) }
        ensures small { sum_by body_size self.now < 2 ^ 31 }
        ensures within { result ≤ sum_by body_size self.now }
    {
        *self.bodies.at(place)
    }

    /// How many bytes the body of the slot in a place from 0 has.
    pub fn body_length(&self, place: usize) -> u32
        requires { place < length self.now }
        ensures { result ≡ body_size (slice_index_or self.now place Slot.Gone) }
    {
        let _count = self.len();
        self.body_place(place + 1) - self.body_place(place)
    }

    /// The slots with the outline of one more at the end.
    ///
    /// The error comes where there is no memory.
    pub fn with_slot(self, alloc: Global, slot: Slot) -> Result<SharedSlots, AllocError>
        requires few { length self < slot_limit }
        requires headers { 1024 + (sum_by slot_header self + slot_header slot) < 2 ^ 31 }
        requires bodies { sum_by body_size self + body_size slot < 2 ^ 31 }
        ensures { IfOk result (λ more. more ≡ self ++ slot_outline slot ∷ []) }
    {
        let size = body_length(&slot);
        self.with_bare(alloc, slot, size)
    }

    /// The slots with one more at the end, whose body, which is dropped, counts as one of this length.
    fn with_bare(self, alloc: Global, slot: Slot, size: u32) -> Result<SharedSlots, AllocError>
        requires few { length self < slot_limit }
        requires size { body_size (slot_with size slot) ≡ size }
        requires headers { 1024 + (sum_by slot_header self + slot_header slot) < 2 ^ 31 }
        requires bodies { sum_by body_size self + size < 2 ^ 31 }
        ensures { IfOk result (λ more. more ≡ self ++ slot_with size slot ∷ []) }
    {
        let count = self.len();
        let header = self.header_place(count) + header_length(&slot);
        let body = self.body_place(count) + size;
        let live = self.live + live_in(&slot);
        let mut slots = self.slots;
        let mut headers = self.headers;
        let mut bodies = self.bodies;
        slots.add(alloc, Shared::new(alloc, without_body(alloc, slot))?)?;
        headers.add(alloc, header)?;
        bodies.add(alloc, body)?;
        Ok(SharedSlots {
            slots,
            headers,
            bodies,
            live,
        })
    }

    /// The slots with another in a place from 0, whose header is as long as that of the one before, and whose body stays.
    ///
    /// The error comes where there is no memory.
    pub fn replaced(
        self,
        alloc: Global,
        place: usize,
        slot: Slot,
    ) -> Result<SharedSlots, AllocError>
        requires within { place < length self }
        requires header { slot_header slot ≡ slot_header (slice_index_or self place slot) }
        requires body { body_size (slot_as_long (slice_index_or self place slot) slot) ≡ body_size (slice_index_or self place slot) }
        ensures { IfOk result (λ new. new ≡ slice_set self place (slot_as_long (slice_index_or self place slot) slot)) }
    {
        let live = self.live + live_in(&slot) - live_in(self.at(place));
        let mut slots = self.slots;
        slots.set(alloc, place, Shared::new(alloc, without_body(alloc, slot))?)?;
        Ok(SharedSlots {
            slots,
            headers: self.headers,
            bodies: self.bodies,
            live,
        })
    }

    /// The same slots, which are shared.
    ///
    /// The error comes where there is no memory.
    pub fn copy(&self, alloc: Global) -> Result<SharedSlots, AllocError>
        ensures { IfOk result (λ copy. copy ≡ self.now) }
    {
        Ok(SharedSlots {
            slots: self.slots.copy(alloc)?,
            headers: self.headers.copy(alloc)?,
            bodies: self.bodies.copy(alloc)?,
            live: self.live,
        })
    }
}

impl Duplicate for SharedSlots {
    fn duplicate(&self, alloc: Global) -> Result<SharedSlots, AllocError> {
        self.copy(alloc)
    }
}
