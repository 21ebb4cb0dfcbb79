// What a reader was offered of a conference, once it is acknowledged.
ghost use Rattle.std.specs.Prelude.{◌≡◌, ◌≤◌, ◌<◌, true, length, IfOk, IsSome};
ghost use Rattle.jam_base.specs.Bodies.{Lengthens};
ghost use Rattle.jam_base.specs.Change.{Turns, SuitsIntent};
ghost use Rattle.jam_base.specs.Contents.{reader_place, receipt_to as receipt_of, with_acknowledged, with_slots};
ghost use Rattle.jam_base.specs.Outlined.{TurnsEach};
ghost use Rattle.jam_base.specs.Slots.{any_due as some_due, slots_received as received_of};
ghost use Rattle.jam_writing.specs.jam_layout.Layout.{layout};

use crate::base::Base;
use crate::change::BaseChange;
use crate::receipt::{Receipt, any_due, slots_received};
use std::alloc::{AllocError, Global};

impl Base {
    /// What a reader receives whose pointer goes to a message number at a moment: all above the pointer, up to that
    /// number.
    fn receipt_to(&self, user: u32, upto: u32, now: u32) -> Receipt
        ensures { result ≡ receipt_of user upto now self.now }
    {
        let above = self.pointer(user).unwrap_or(0);
        Receipt { above, upto, now }
    }

    /// The base in which the messages to a name are marked read that are due.
    pub(crate) fn with_reading(
        &self,
        alloc: Global,
        name: &[u8],
        receipt: Receipt,
    ) -> Result<Base, AllocError>
        ensures { IfOk result (λ base. base ≡ with_slots (received_of name.now receipt 1 self.now.conference.slots) self.now) }
    {
        let slots = slots_received(alloc, name, receipt, self.slots())?;
        self.changed(alloc, slots)
    }

    /// As `acknowledged`, where a message is due.
    fn marked_read(
        &self,
        alloc: Global,
        user: u32,
        name: &[u8],
        upto: u32,
        now: u32,
    ) -> Result<BaseChange, AllocError>
        requires reader { IsSome (reader_place user self.now.shape.readers) }
        requires within { upto ≤ length self.now.conference.slots }
        requires due { some_due name.now (receipt_of user upto now self.now) 1 self.now.conference.slots ≡ true }
        ensures base { IfOk result (λ change. change.base ≡ with_acknowledged user name.now upto now self.now) }
        ensures files { IfOk result (λ change. Turns self.now.shape.place (layout self.now.shape self.now.conference) (layout change.base.shape change.base.conference) change.patches) }
        ensures bodies { IfOk result (λ change. Lengthens self.now.shape.place (layout self.now.shape self.now.conference) (layout change.base.shape change.base.conference) change.patches) }
        ensures intent { IfOk result (λ change. SuitsIntent self.now.shape.place (layout change.base.shape change.base.conference) change.patches) }
    {
        let Some(place) = self.shape().readers.position(user) else {
            unreachable!()
        };
        let receipt = self.receipt_to(user, upto, now);
        let marks = self.reception(alloc, name, receipt)?;
        let read = self.with_reading(alloc, name, receipt)?;
        let next = read.with_pointer(alloc, place, upto)?;
        let change = BaseChange::of_marks(alloc, next, marks)?;
        BaseChange::of_pointer(alloc, change.base, change.patches, place, upto)
    }

    /// The base in which a reader, the user of this id and name, has acknowledged what there is up to a message number,
    /// 0 or one of a slot. Each message to the name, ignoring case, is marked read at a moment in Unix seconds where it
    /// isn't deleted, isn't read and has a number above the pointer and at most this one. Then the pointer is at this
    /// number. Where there is such a message, the change counter rises by one, and stays at 4,294,967,295. Its patches
    /// make its files of those of this base.
    ///
    /// The error comes where there is no memory.
    pub fn acknowledged(
        &self,
        alloc: Global,
        user: u32,
        name: &[u8],
        upto: u32,
        now: u32,
    ) -> Result<BaseChange, AllocError>
        requires reader { IsSome (reader_place user self.now.shape.readers) }
        requires within { upto ≤ length self.now.conference.slots }
        ensures base { IfOk result (λ change. change.base ≡ with_acknowledged user name.now upto now self.now) }
        ensures files { IfOk result (λ change. Turns self.now.shape.place (layout self.now.shape self.now.conference) (layout change.base.shape change.base.conference) change.patches) }
        ensures bodies { IfOk result (λ change. Lengthens self.now.shape.place (layout self.now.shape self.now.conference) (layout change.base.shape change.base.conference) change.patches) }
        ensures each { IfOk result (λ change. TurnsEach self.now (with_acknowledged user name.now upto now) change.patches) }
        ensures intent { IfOk result (λ change. SuitsIntent self.now.shape.place (layout change.base.shape change.base.conference) change.patches) }
    {
        let receipt = self.receipt_to(user, upto, now);
        if !any_due(name, receipt, self.slots()) {
            return self.pointed(alloc, user, upto);
        }
        self.marked_read(alloc, user, name, upto, now)
    }
}
