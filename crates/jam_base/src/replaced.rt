// A conference with other slots.
ghost use Rattle.std.specs.Prelude.{◌≡◌, ◌+◌, ◌≤◌, ◌<◌, ◌^◌, length, map, sum_by, All, IfOk};
ghost use Rattle.jam_base.specs.Change.{message_files, SuitsIntent};
ghost use Rattle.jam_base.specs.Contents.{with_slots};
ghost use Rattle.jam_base.specs.Outlined.{outlined, TurnsEach};
ghost use Rattle.jam_writing.specs.jam_layout.Bodies.{body_size};
ghost use Rattle.jam_writing.specs.jam_layout.Layout.{layout};
ghost use Rattle.jam_writing.specs.jam_layout.Limits.{slot_limit};
ghost use Rattle.jam_writing.specs.jam_layout.Messages.{IsSlot};
ghost use Rattle.jam_writing.specs.jam_layout.Outlines.{slot_outline};
ghost use Rattle.jam_writing.specs.jam_layout.Sizes.{slot_header};

use crate::base::Base;
use crate::change::{BaseChange, messages_of};
use intent_journal::Patches;
use jam_records::{Duplicate, Slot, Slots};
use jam_threads::{Shared, Threads};
use jam_writing::{SharedSlots, write_whole_bodies, write_whole_headers, write_whole_records};
use std::alloc::{AllocError, Global};

/// What is kept of these slots, of which one at a time is copied.
fn kept_of(alloc: Global, slots: &[Slot]) -> Result<SharedSlots, AllocError>
    requires few { length slots.now ≤ slot_limit }
    requires headers { 1024 + sum_by slot_header slots.now < 2 ^ 31 }
    requires bodies { sum_by body_size slots.now < 2 ^ 31 }
    ensures { IfOk result (λ kept. kept ≡ map slot_outline slots.now) }
{
    let mut kept = SharedSlots::new(alloc)?;
    for slot in slots {
        kept = kept.with_slot(alloc, slot.duplicate(alloc)?)?;
    }
    Ok(kept)
}

impl Base {
    /// The patches that write .JHR, .JDT and .JDX whole, in one change. These are its slots, with their bodies.
    fn whole(&self, alloc: Global, slots: &[Slot]) -> Result<Patches, AllocError>
        requires { map slot_outline slots.now ≡ self.now.conference.slots }
        ensures { IfOk result (λ patches. patches ≡ message_files self.now.shape.place (layout self.now.shape (record self.now.conference { slots = slots.now }))) }
    {
        let kept = self.slots();
        let jhr = write_whole_headers(alloc, self.shape(), self.counter(), kept, self.threads())?;
        let jdt = write_whole_bodies(alloc, slots)?;
        let jdx = write_whole_records(alloc, kept)?;
        messages_of(alloc, self.place(), jhr, jdt, jdx)
    }

    /// The base with these slots in place of its own, as many as it has. The change counter rises by one, and stays at
    /// 4,294,967,295. Its patches write .JHR, .JDT and .JDX of it whole, whatever bodies stand in .JDT; .JLR stays. Each
    /// message that the slots hold is one that a conference of this kind may hold, with a msgid.
    ///
    /// The error comes where there is no memory.
    pub fn replaced(&self, alloc: Global, slots: &Slots) -> Result<BaseChange, AllocError>
        requires count { length slots.now ≡ length self.now.conference.slots }
        requires slots { All (IsSlot self.now.shape.kind) slots.now }
        ensures base { IfOk result (λ change. change.base ≡ outlined (with_slots slots.now self.now)) }
        ensures each { IfOk result (λ change. TurnsEach self.now (with_slots slots.now) change.patches) }
        ensures intent { IfOk result (λ change. SuitsIntent self.now.shape.place (layout change.base.shape change.base.conference) change.patches) }
    {
        let _shape = self.shape();
        let kept = kept_of(alloc, slots.as_slice())?;
        let threads = Shared::new(alloc, Threads::of(alloc, slots)?)?;
        let base = self.with_threads(alloc, kept, threads)?;
        let patches = base.whole(alloc, slots.as_slice())?;
        Ok(BaseChange { base, patches })
    }
}
