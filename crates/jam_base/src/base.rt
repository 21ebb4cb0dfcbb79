ghost use Rattle.std.specs.Prelude.{◌≡◌, ◌↔◌, ◌+◌, ◌-◌, ◌*◌, ◌^◌, ◌≤◌, ◌<◌, ◌==◌, ℕ, [], length, map, take, slice_get, slice_index_or, slice_set, sum_by, All, None, IfOk, IsSome, IsTrue, if◌then◌else◌};
ghost use Rattle.std.specs.Option.{option_copied};
ghost use Rattle.jam_threads.specs.Children.{original};
ghost use Rattle.jam_writing.specs.jam_layout.Layout.{layout, files_size};
ghost use Rattle.jam_base.specs.Bodies.{body_span as span_of, Lengthens};
ghost use Rattle.jam_base.specs.Change.{Turns, SuitsIntent};
ghost use Rattle.jam_base.specs.Outlined.{outlined, TurnsEach};
ghost use Rattle.jam_base.specs.Contents.{reader_place, pointer_of, no_slots, with_reader, with_slots, with_messages as with_messages_of, with_deleted as with_deleted_of, with_received, with_pointer};
ghost use Rattle.jam_base.specs.Puts.{counts_put, last_headers as last_headers_of, bodies_put, last_records as last_records_of, link_puts, Costs};
ghost use Rattle.jam_base.specs.Slots.{has_live as has_live_of, numbered, slots_deleted, slots_with_all};
ghost use Rattle.jam_base.specs.MarkPuts.{delete_puts, receive_puts};
ghost use Rattle.intent_journal.specs.Patches.{byte_count};
ghost use Rattle.jam_threads.specs.Threading.{AreThreads};
ghost use Rattle.jam_threads.specs.declared.threads.Threads.{Threads as ThreadsOf};
ghost use Rattle.jam_writing.specs.jam_layout.Limits.{slot_limit};
ghost use Rattle.jam_writing.specs.jam_layout.Messages.{IsMessage};
ghost use Rattle.jam_writing.specs.jam_layout.Bare.{filled};
ghost use Rattle.jam_writing.specs.jam_layout.Outlines.{slot_bare};
ghost use Rattle.jam_writing.specs.jam_layout.Bodies.{body_size};
ghost use Rattle.jam_writing.specs.jam_layout.Conference.{live_count};
ghost use Rattle.jam_writing.specs.jam_layout.Valid.{IsShape, IsConference};
ghost use Rattle.jam_writing.specs.jam_layout.declared.files.BaseFiles.{BaseFiles};

use crate::change::BaseChange;
use crate::linked::add_messages;
use crate::marks::{delete_patches, receive_patches};
use crate::numbers::two_numbers;
use crate::pointers::{moved, no_pointers};
use crate::receipt::{Receipt, any_due};
use crate::refusal::{AppendRefusal, KillRefusal};
use crate::slots::{has_live, with_deleted, with_messages};
use crate::span::Span;
use intent_journal::{FileId, Patch, Patches};
use jam_records::{Bytes, Duplicate, List, Message, Messages, Slot, Slots};
use jam_threads::{Shared, SharedList, Threads};
use jam_writing::{
    BareConference, ConferenceContents, Reader, SLOT_LIMIT, Shape, SharedSlots, ThreadedConference,
    write_bodies, write_first, write_jlr, write_last_headers, write_last_records, write_reader,
};
use std::alloc::{AllocError, Global};
use std::marker::Model;

/// A conference and its shape, without the bodies of its messages: they stand in .JDT, and how long they are is kept. The
/// base before a change and the one after it share what the change leaves. Contracts see the two as `Contents`, whose
/// conference is an outline.
#[derive(Debug, Drop)]
pub struct Base {
    shape: Shared<Shape>,
    counter: u32,
    slots: SharedSlots,
    pointers: SharedList<u32>,
    /// The threads of its slots.
    threads: Shared<Threads>,
}

impl Model for Base {
    ghost use Rattle.jam_base.specs.Contents.{Contents};
    ghost use Rattle.jam_writing.specs.jam_layout.Valid.{IsShape, IsConference};
    ghost use Rattle.jam_threads.specs.Threading.{AreThreads};

    ghost Value = { Contents };

    ghost view = { λ s. record { shape = s.shape; conference = record { counter = s.counter; slots = s.slots; pointers = s.pointers } } };

    ghost invariant = { λ s. IsShape s.shape × IsConference s.shape (record { counter = s.counter; slots = s.slots; pointers = s.pointers }) × AreThreads s.slots s.threads };
}

impl Base {
    /// The base of this shape and of this conference, which has no bodies, but their lengths. Its threads are kept.
    pub(crate) fn linked(
        alloc: Global,
        shape: &Shape,
        bare: ThreadedConference,
    ) -> Result<Base, AllocError>
        requires shape { IsShape shape.now }
        requires conference { IsConference shape.now (filled bare) }
        ensures { IfOk result (λ base. base ≡ record { shape = shape.now; conference = filled bare }) }
    {
        let (bare, threads) = bare.into_parts();
        let conference = bare.conference;
        let slots = SharedSlots::from_bare(alloc, conference.slots, bare.lengths.as_slice())?;
        let pointers = SharedList::from_list(alloc, conference.pointers)?;
        Ok(Base {
            shape: Shared::new(alloc, shape.duplicate(alloc)?)?,
            counter: conference.counter,
            slots,
            pointers,
            threads: Shared::new(alloc, threads)?,
        })
    }

    /// Its shape.
    pub(crate) fn shape(&self) -> &Shape
        ensures same { result.now ≡ self.now.shape }
        ensures is_shape { IsShape self.now.shape }
        ensures is_conference { IsConference self.now.shape self.now.conference }
        ensures outline { outlined self.now ≡ self.now }
    {
        let _count = self.slots.len();
        self.shape.get()
    }

    /// Its slots.
    pub(crate) fn slots(&self) -> &SharedSlots
        ensures same { result.now ≡ self.now.conference.slots }
        ensures is_conference { IsConference self.now.shape self.now.conference }
        ensures outline { outlined self.now ≡ self.now }
    {
        let _count = self.slots.len();
        &self.slots
    }

    /// The pointers of its readers.
    fn pointers(&self) -> &SharedList<u32>
        ensures { result.now ≡ self.now.conference.pointers }
    {
        &self.pointers
    }

    /// Its change counter.
    pub(crate) fn counter(&self) -> u32
        ensures { result ≡ self.now.conference.counter }
    {
        self.counter
    }

    /// The threads of its slots.
    pub(crate) fn threads(&self) -> &Threads
        ensures { AreThreads self.now.conference.slots result.now }
    {
        self.threads.get()
    }

    /// The base with other slots, by one change, whose threads these are.
    pub(crate) fn with_threads(
        &self,
        alloc: Global,
        slots: SharedSlots,
        threads: Shared<Threads>,
    ) -> Result<Base, AllocError>
        requires conference { IsConference self.now.shape (with_slots slots self.now).conference }
        requires threads { AreThreads slots threads }
        ensures { IfOk result (λ base. base ≡ with_slots slots self.now) }
    {
        Ok(Base {
            shape: self.shape.share()?,
            counter: self.counter.saturating_add(1),
            slots,
            pointers: self.pointers.copy(alloc)?,
            threads,
        })
    }

    /// The base with other slots, by one change, whose threads are those of its own.
    pub(crate) fn changed(&self, alloc: Global, slots: SharedSlots) -> Result<Base, AllocError>
        requires conference { IsConference self.now.shape (with_slots slots self.now).conference }
        requires threads { (threads : ThreadsOf) → AreThreads self.now.conference.slots threads → AreThreads slots threads }
        ensures { IfOk result (λ base. base ≡ with_slots slots self.now) }
    {
        let threads = self.threads.share()?;
        self.with_threads(alloc, slots, threads)
    }

    /// The same base, which is shared.
    fn copy(&self, alloc: Global) -> Result<Base, AllocError>
        ensures { IfOk result (λ copy. copy ≡ self.now) }
    {
        Ok(Base {
            shape: self.shape.share()?,
            counter: self.counter,
            slots: self.slots.copy(alloc)?,
            pointers: self.pointers.copy(alloc)?,
            threads: self.threads.share()?,
        })
    }

    /// The base of another shape, with the pointers of its readers.
    fn with_readers(
        &self,
        alloc: Global,
        shape: Shared<Shape>,
        pointers: SharedList<u32>,
    ) -> Result<Base, AllocError>
        requires shape { IsShape shape }
        requires conference { IsConference shape (record self.now.conference { pointers = pointers }) }
        ensures { IfOk result (λ base. base ≡ record { shape = shape; conference = record self.now.conference { pointers = pointers } }) }
    {
        Ok(Base {
            shape,
            counter: self.counter,
            slots: self.slots.copy(alloc)?,
            pointers,
            threads: self.threads.share()?,
        })
    }

    /// The base with a further reader, whose pointer is 0.
    fn with_reader(&self, alloc: Global, reader: Reader) -> Result<Base, AllocError>
        requires { All (λ other. other.id < reader.id) self.now.shape.readers }
        ensures { IfOk result (λ base. base ≡ with_reader reader.id reader.name self.now) }
    {
        let mut shape = self.shape().duplicate(alloc)?;
        shape.readers.add(alloc, reader)?;
        let mut pointers = self.pointers().copy(alloc)?;
        pointers.add(alloc, 0)?;
        self.with_readers(alloc, Shared::new(alloc, shape)?, pointers)
    }

    /// The base with the pointer in a place, from 0, at a message number.
    pub(crate) fn with_pointer(
        &self,
        alloc: Global,
        place: usize,
        number: u32,
    ) -> Result<Base, AllocError>
        requires there { place < length self.now.conference.pointers }
        requires within { number ≤ length self.now.conference.slots }
        ensures { IfOk result (λ base. base ≡ record self.now { conference = record self.now.conference { pointers = slice_set self.now.conference.pointers place number } }) }
    {
        let pointers = moved(alloc, &self.pointers, place, number)?;
        self.with_readers(alloc, self.shape.share()?, pointers)
    }

    /// The threads with these messages at the end, and the patches of the links that these change in the
    /// headers of older ones.
    fn threaded(
        &self,
        alloc: Global,
        messages: &[Message],
    ) -> Result<(Shared<Threads>, Patches), AllocError>
        requires { length self.now.conference.slots + length messages.now ≤ slot_limit }
        ensures threads { IfOk result (λ made. AreThreads (slots_with_all self.now.conference.slots messages.now) made.0) }
        ensures patches { IfOk result (λ made. made.1 ≡ link_puts self.now.shape.place self.now.conference.slots self.now.conference.slots messages.now) }
    {
        let mut threads = self.threads.get().copy(alloc)?;
        let links = add_messages(alloc, self.place(), &self.slots, &mut threads, messages)?;
        Ok((Shared::new(alloc, threads)?, links))
    }

    /// No change.
    fn unchanged(&self, alloc: Global) -> Result<BaseChange, AllocError>
        ensures base { IfOk result (λ change. change.base ≡ self.now) }
        ensures patches { IfOk result (λ change. change.patches ≡ []) }
        ensures bodies { IfOk result (λ change. Lengthens self.now.shape.place (layout self.now.shape self.now.conference) (layout change.base.shape change.base.conference) change.patches) }
    {
        let base = self.copy(alloc)?;
        Ok(BaseChange::of_nothing(alloc, base))
    }

    /// Its place, from 0 to 63.
    pub(crate) fn place(&self) -> u8
        ensures place { result ≡ self.now.shape.place }
        ensures bound { result < 64 }
    {
        self.shape.get().place
    }

    /// The bytes of its .JLR.
    pub(crate) fn jlr(&self, alloc: Global) -> Result<Bytes, AllocError>
        ensures { IfOk result (λ jlr. jlr ≡ (layout self.now.shape self.now.conference).jlr) }
    {
        let pointers = self.pointers().to_list(alloc)?;
        write_jlr(alloc, &self.shape().readers, pointers.as_slice())
    }

    /// The patch of its change counter and its count of messages that aren't deleted.
    pub(crate) fn counts(&self, alloc: Global) -> Result<Patch, AllocError>
        ensures { IfOk result (λ patch. patch ≡ counts_put self.now.shape.place self.now.conference) }
    {
        let bytes = two_numbers(self.counter, self.live_count());
        Ok(Patch::Put {
            file: FileId::jhr(self.place()),
            at: 8,
            bytes: Bytes::from_slice(alloc, &bytes)?,
        })
    }

    /// The patches that mark the message of a number deleted.
    fn deletion(&self, alloc: Global, number: u32) -> Result<Patches, AllocError>
        requires above { 0 < number }
        requires within { number ≤ length self.now.conference.slots }
        ensures { IfOk result (λ patches. patches ≡ delete_puts self.now.shape.kind self.now.shape.place self.now.conference.slots number (numbered self.now.conference.slots number)) }
    {
        let kind = self.shape.get().kind;
        delete_patches(alloc, self.place(), kind, &self.slots, number)
    }

    /// The patches that mark read what is due of this receipt.
    pub(crate) fn reception(
        &self,
        alloc: Global,
        name: &[u8],
        receipt: Receipt,
    ) -> Result<Patches, AllocError>
        ensures { IfOk result (λ patches. patches ≡ receive_puts self.now.shape.kind self.now.shape.place name.now receipt 1024 1 self.now.conference.slots) }
    {
        let kind = self.shape.get().kind;
        receive_patches(alloc, self.place(), kind, name, receipt, &self.slots)
    }

    /// The patch of the headers behind so many slots.
    pub(crate) fn last_headers(&self, alloc: Global, count: usize) -> Result<Patch, AllocError>
        requires { count ≤ length self.now.conference.slots }
        ensures { IfOk result (λ patch. patch ≡ last_headers_of self.now.shape count self.now.conference) }
    {
        let slots = &self.slots;
        let threads = self.threads.get();
        let offset = slots.body_place(count);
        let at = slots.header_place(count);
        let kind = self.shape.get().kind;
        let bytes = write_last_headers(alloc, kind, slots, threads, count, offset)?;
        let file = FileId::jhr(self.place());
        Ok(Patch::Put { file, at, bytes })
    }

    /// The patch of these bodies, which stand behind those of so many slots.
    pub(crate) fn added_bodies(&self, count: usize, bodies: Bytes) -> Patch
        requires { count ≤ length self.now.conference.slots }
        ensures { result ≡ bodies_put self.now.shape.place count self.now.conference bodies }
    {
        Patch::Put {
            file: FileId::jdt(self.place()),
            at: self.slots.body_place(count),
            bytes: bodies,
        }
    }

    /// The patch of the index records behind so many slots.
    pub(crate) fn last_records(&self, alloc: Global, count: usize) -> Result<Patch, AllocError>
        requires { count ≤ length self.now.conference.slots }
        ensures { IfOk result (λ patch. patch ≡ last_records_of self.now.shape.place count self.now.conference) }
    {
        let slots = &self.slots;
        let first = slots.header_place(count);
        let bytes = write_last_records(alloc, slots, count, first)?;
        let file = FileId::jdx(self.place());
        let at = 8 * count as u32;
        Ok(Patch::Put { file, at, bytes })
    }

    /// The base of a new conference: no slots, and the pointer of each reader 0. Its patches write its four
    /// files, whatever they were. The shape's place is at most 63, and the ids of its readers rise.
    ///
    /// The error comes where there is no memory.
    pub fn fresh(alloc: Global, shape: &Shape) -> Result<BaseChange, AllocError>
        requires { IsShape shape.now }
        ensures base { IfOk result (λ change. change.base ≡ record { shape = shape.now; conference = no_slots shape.now }) }
        ensures files { IfOk result (λ change. (old : BaseFiles) → Turns shape.now.place old (layout shape.now (no_slots shape.now)) change.patches) }
        ensures intent { IfOk result (λ change. SuitsIntent shape.now.place (layout shape.now (no_slots shape.now)) change.patches) }
    {
        let conference = ConferenceContents {
            counter: 0,
            slots: Slots::new(alloc),
            pointers: no_pointers(alloc, shape.readers.len())?,
        };
        let files = write_first(alloc, shape, conference.pointers.as_slice())?;
        let bare = BareConference {
            conference,
            lengths: List::new(alloc),
        };
        let base = Base::linked(alloc, shape, ThreadedConference::new(alloc, bare)?)?;
        BaseChange::of_files(alloc, base, files)
    }

    /// The base with a further reader, whose pointer is 0: the user of this id, above that of each reader, and
    /// this name. Its patches make its files of those of this base.
    ///
    /// The error comes where there is no memory.
    pub fn joined(&self, alloc: Global, user: u32, name: &[u8]) -> Result<BaseChange, AllocError>
        requires { All (λ reader. reader.id < user) self.now.shape.readers }
        ensures base { IfOk result (λ change. change.base ≡ with_reader user name.now self.now) }
        ensures files { IfOk result (λ change. Turns self.now.shape.place (layout self.now.shape self.now.conference) (layout change.base.shape change.base.conference) change.patches) }
        ensures bodies { IfOk result (λ change. Lengthens self.now.shape.place (layout self.now.shape self.now.conference) (layout change.base.shape change.base.conference) change.patches) }
        ensures each { IfOk result (λ change. TurnsEach self.now (with_reader user name.now) change.patches) }
        ensures intent { IfOk result (λ change. SuitsIntent self.now.shape.place (layout change.base.shape change.base.conference) change.patches) }
        ensures costs { IfOk result (λ change. (length change.patches ≡ 1) × (length self.now.shape.readers < 0x7FF_FFFF → byte_count change.patches ≤ 16)) }
    {
        let name = Bytes::from_slice(alloc, name)?;
        let reader = Reader { id: user, name };
        let record = write_reader(&reader, 0);
        let place = self.shape().readers.len();
        let base = self.with_reader(alloc, reader)?;
        BaseChange::of_record(alloc, base, place, &record)
    }

    /// The base with these messages at the end, one after the other. Its patches make its files of those of
    /// this base. Where there are no messages, nothing changes; else the change counter rises by one, and stays
    /// at 4,294,967,295. Each message is one that a conference of this kind may hold, with a msgid. For callers of the
    /// library; the program doesn't call it.
    ///
    /// `Slots` comes where more than 9,999 slots would stand, and says how many. `OutOfMemory` comes where there
    /// is no memory.
    pub fn appended(&self, alloc: Global, messages: &Messages) -> Result<BaseChange, AppendRefusal>
        requires { All (IsMessage self.now.shape.kind) messages.now }
        ensures base { IfOk result (λ change. change.base ≡ outlined (with_messages_of messages.now self.now)) }
        ensures costs { IfOk result (λ change. Costs (length messages.now) (layout self.now.shape self.now.conference) (layout change.base.shape change.base.conference) change.patches) }
        ensures bodies { IfOk result (λ change. Lengthens self.now.shape.place (layout self.now.shape self.now.conference) (layout (with_messages_of messages.now self.now).shape (with_messages_of messages.now self.now).conference) change.patches) }
        ensures each { IfOk result (λ change. TurnsEach self.now (with_messages_of messages.now) change.patches) }
        ensures intent { IfOk result (λ change. SuitsIntent self.now.shape.place (layout change.base.shape change.base.conference) change.patches) }
        ensures slots { (s : ℕ) → (result ≡ Err (AppendRefusal.Slots s)) ↔ ((s ≡ length self.now.conference.slots + length messages.now) × (slot_limit < s)) }
    {
        let count = self.slots().len() as u64 + messages.as_slice().len() as u64;
        if count > SLOT_LIMIT as u64 {
            return Err(AppendRefusal::Slots(count));
        }
        Ok(self.extended(alloc, messages.copy(alloc)?)?)
    }

    /// The base with these messages at the end, as `appended` has it, which are moved there and not copied. Each
    /// is one that a conference of this kind may hold, with a msgid, and at most 9,999 slots will stand.
    ///
    /// The error comes where there is no memory.
    pub fn extended(&self, alloc: Global, messages: Messages) -> Result<BaseChange, AllocError>
        requires messages { All (IsMessage self.now.shape.kind) messages }
        requires few { length self.now.conference.slots + length messages ≤ slot_limit }
        ensures base { IfOk result (λ change. change.base ≡ outlined (with_messages_of messages self.now)) }
        ensures costs { IfOk result (λ change. Costs (length messages) (layout self.now.shape self.now.conference) (layout change.base.shape change.base.conference) change.patches) }
        ensures bodies { IfOk result (λ change. Lengthens self.now.shape.place (layout self.now.shape self.now.conference) (layout (with_messages_of messages self.now).shape (with_messages_of messages self.now).conference) change.patches) }
        ensures each { IfOk result (λ change. TurnsEach self.now (with_messages_of messages) change.patches) }
        ensures intent { IfOk result (λ change. SuitsIntent self.now.shape.place (layout change.base.shape change.base.conference) change.patches) }
    {
        let old = self.slots();
        if messages.as_slice().is_empty() {
            return self.unchanged(alloc);
        }
        let (threads, links) = self.threaded(alloc, messages.as_slice())?;
        let bodies = write_bodies(alloc, messages.as_slice())?;
        let slots = with_messages(alloc, old, messages)?;
        let base = self.with_threads(alloc, slots, threads)?;
        BaseChange::of_appended(alloc, base, old.len(), links, bodies)
    }

    /// The base in which the message of a number is marked deleted, which is there and isn't.
    fn with_deletion(&self, alloc: Global, number: u32) -> Result<Base, AllocError>
        requires { IsTrue (has_live_of number self.now.conference.slots) }
        ensures { IfOk result (λ base. base ≡ with_slots (slots_deleted number self.now.conference.slots) self.now) }
    {
        let slots = with_deleted(alloc, number, self.slots())?;
        self.changed(alloc, slots)
    }

    /// The base with the message of a number marked deleted. Its patches make its files of those of this base.
    /// The change counter rises by one, and stays at 4,294,967,295.
    ///
    /// `NoMessage` comes where no message of that number is without the mark deleted. `OutOfMemory` comes where
    /// there is no memory.
    pub fn killed(&self, alloc: Global, number: u32) -> Result<BaseChange, KillRefusal>
        ensures base { IfOk result (λ change. change.base ≡ with_deleted_of number self.now) }
        ensures costs { IfOk result (λ change. (length change.patches ≤ 2) × (byte_count change.patches ≤ 24)) }
        ensures files { IfOk result (λ change. Turns self.now.shape.place (layout self.now.shape self.now.conference) (layout change.base.shape change.base.conference) change.patches) }
        ensures bodies { IfOk result (λ change. Lengthens self.now.shape.place (layout self.now.shape self.now.conference) (layout change.base.shape change.base.conference) change.patches) }
        ensures each { IfOk result (λ change. TurnsEach self.now (with_deleted_of number) change.patches) }
        ensures intent { IfOk result (λ change. SuitsIntent self.now.shape.place (layout change.base.shape change.base.conference) change.patches) }
        ensures none { (result ≡ Err KillRefusal.NoMessage) ↔ ¬ IsTrue (has_live_of number self.now.conference.slots) }
    {
        if !has_live(number, self.slots()) {
            return Err(KillRefusal::NoMessage);
        }
        let marks = self.deletion(alloc, number)?;
        let base = self.with_deletion(alloc, number)?;
        Ok(BaseChange::of_marks(alloc, base, marks)?)
    }

    /// The base with each message to a name, ignoring case, marked read at a moment in Unix seconds that isn't
    /// deleted, isn't read and has a number above one bound and at most the other. Its patches make its files
    /// of those of this base. Where there is such a message, the change counter rises by one, and stays at
    /// 4,294,967,295; else nothing changes. For callers of the library; the program doesn't call it.
    ///
    /// The error comes where there is no memory.
    pub fn received(
        &self,
        alloc: Global,
        name: &[u8],
        above: u32,
        upto: u32,
        now: u32,
    ) -> Result<BaseChange, AllocError>
        ensures base { IfOk result (λ change. change.base ≡ with_received name.now (record { above = above; upto = upto; now = now }) self.now) }
        ensures files { IfOk result (λ change. Turns self.now.shape.place (layout self.now.shape self.now.conference) (layout change.base.shape change.base.conference) change.patches) }
        ensures bodies { IfOk result (λ change. Lengthens self.now.shape.place (layout self.now.shape self.now.conference) (layout change.base.shape change.base.conference) change.patches) }
        ensures each { IfOk result (λ change. TurnsEach self.now (with_received name.now (record { above = above; upto = upto; now = now })) change.patches) }
        ensures intent { IfOk result (λ change. SuitsIntent self.now.shape.place (layout change.base.shape change.base.conference) change.patches) }
    {
        let receipt = Receipt { above, upto, now };
        if !any_due(name, receipt, self.slots()) {
            return self.unchanged(alloc);
        }
        let marks = self.reception(alloc, name, receipt)?;
        let read = self.with_reading(alloc, name, receipt)?;
        BaseChange::of_marks(alloc, read, marks)
    }

    /// The base with the pointer of a reader, the user of this id, at a message number: 0, or one of a slot. Its
    /// patches make its files of those of this base.
    ///
    /// The error comes where there is no memory.
    pub fn pointed(&self, alloc: Global, user: u32, number: u32) -> Result<BaseChange, AllocError>
        requires reader { IsSome (reader_place user self.now.shape.readers) }
        requires within { number ≤ length self.now.conference.slots }
        ensures base { IfOk result (λ change. change.base ≡ with_pointer user number self.now) }
        ensures files { IfOk result (λ change. Turns self.now.shape.place (layout self.now.shape self.now.conference) (layout change.base.shape change.base.conference) change.patches) }
        ensures bodies { IfOk result (λ change. Lengthens self.now.shape.place (layout self.now.shape self.now.conference) (layout change.base.shape change.base.conference) change.patches) }
        ensures each { IfOk result (λ change. TurnsEach self.now (with_pointer user number) change.patches) }
        ensures intent { IfOk result (λ change. SuitsIntent self.now.shape.place (layout change.base.shape change.base.conference) change.patches) }
    {
        let Some(place) = self.shape().readers.position(user) else {
            unreachable!()
        };
        let base = self.with_pointer(alloc, place, number)?;
        BaseChange::of_pointer(alloc, base, Patches::new(alloc), place, number)
    }

    /// How many slots the conference has, 0 to 9,999. It is the greatest message number.
    pub fn slot_count(&self) -> u32
        ensures { result ≡ length self.now.conference.slots }
    {
        self.slots.len() as u32
    }

    /// How many messages aren't deleted. It is ActiveMsgs of the base header.
    pub fn live_count(&self) -> u32
        ensures { result ≡ live_count self.now.conference.slots }
    {
        self.slots.live_count()
    }

    /// The last-read pointer of the reader who is the user of this id: a message number, or 0 before the first.
    /// None where no reader has the id.
    pub fn pointer(&self, user: u32) -> Option<u32>
        ensures { result ≡ pointer_of user self.now.shape.readers self.now.conference.pointers }
    {
        let place = self.shape.get().readers.position(user)?;
        self.pointers.get(place).copied()
    }

    /// How many bytes its .JLR has.
    pub fn jlr_size(&self) -> u64
        ensures size { result ≡ 16 * length self.now.shape.readers }
        ensures bound { result ≤ 2 ^ 36 }
    {
        16 * self.shape().readers.len() as u64
    }

    /// How many bytes the four files have together.
    pub fn size(&self) -> u64
        ensures { result ≡ files_size (layout self.now.shape self.now.conference) }
    {
        let slots = &self.slots;
        let count = slots.len();
        let messages = u64::from(slots.header_place(count)) + u64::from(slots.body_place(count));
        messages + 8 * count as u64 + self.jlr_size()
    }

    /// The slot of a message number, from 1, with an empty body, or None where there is none.
    pub fn slot(&self, number: u32) -> Option<&Slot>
        ensures { option_copied result ≡ if number == 0 then None else slice_get (map slot_bare self.now.conference.slots) (number - 1) }
    {
        if number == 0 {
            return None;
        }
        self.slots.get(number as usize - 1)
    }

    /// Where in .JDT the body of the message of a number stands, or None where no slot of that number holds one. It takes
    /// no memory.
    pub fn body_span(&self, number: u32) -> Option<Span>
        ensures { result ≡ span_of number self.now.conference.slots }
    {
        match self.slot(number) {
            Some(Slot::Held(_)) => Some(self.span(number as usize - 1)),
            Some(Slot::Gone) => None,
            None => None,
        }
    }

    /// Where in .JDT the body of the slot in a place from 0 stands, or would stand.
    fn span(&self, place: usize) -> Span
        requires { place < length self.now.conference.slots }
        ensures at { result.at ≡ sum_by body_size (take place self.now.conference.slots) }
        ensures len { result.len ≡ body_size (slice_index_or self.now.conference.slots place Slot.Gone) }
    {
        Span {
            at: self.slots.body_place(place),
            len: self.slots.body_length(place),
        }
    }

    /// The number of the message that this one answers, or 0 where it answers none that is there or no slot
    /// has the number.
    pub fn reply_to(&self, number: u32) -> u32
        ensures { result ≡ original self.now.conference.slots number }
    {
        self.threads.get().reply_to(number)
    }
}
