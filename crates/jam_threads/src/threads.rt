ghost use Rattle.std.specs.Prelude.{◌≡◌, ℕ, suc, ◌+◌, ◌-◌, ◌≤◌, ◌<◌, ◌^◌, List, [], ◌∷◌, ◌++◌, length, replicate, slice_get, slice_index, slice_index_or, slice_set, vec_capacity, vec_len, IfOk, OnOk, OnErr, Some};
ghost use Rattle.jam_records.specs.declared.message.Message.{Message};
ghost use Rattle.jam_records.specs.declared.message.Slot.{Slot};
ghost use Rattle.jam_records.specs.declared.message.Slot.TheVariants.{Gone, Held};
ghost use Rattle.jam_threads.specs.Children.{original_behind, slot_original, original as original_in};
ghost use Rattle.jam_threads.specs.LinkChanges.{change_by, link_change};
ghost use Rattle.jam_threads.specs.Links.{link_of};
ghost use Rattle.jam_threads.specs.declared.link.Link.{Link};
ghost use Rattle.jam_threads.specs.Chains.{AreChains, hung};
ghost use Rattle.jam_threads.specs.Threading.{AreThreads, AreOfSlots, HasRoom};

use crate::first_numbers::FirstNumbers;
use crate::link::{Link, LinkField, LinkPatch};
use jam_records::{Slot, Slots};
use std::alloc::{AllocError, Global};

/// The links of a list of slots that grows at its end, and what finds those of a message there: by one look-up
/// of its ids, however many slots there are.
#[derive(Debug, Drop)]
pub struct Threads {
    alloc: Global,
    /// The first message of each id.
    pub(crate) firsts: FirstNumbers,
    /// The links of each message.
    pub(crate) links: Vec<Link>,
    /// The last answer to each message, or 0.
    pub(crate) last_answers: Vec<u32>,
}

/// The one link number that a message of a number changes, whose original has this last answer, or 0.
fn change(original: u32, last: u32, number: u32) -> LinkPatch
    requires { 0 < original }
    ensures { Some result ≡ change_by original last number }
{
    if last == 0 {
        LinkPatch {
            number: original,
            field: LinkField::First,
            value: number,
        }
    } else {
        LinkPatch {
            number: last,
            field: LinkField::Next,
            value: number,
        }
    }
}

/// Puts a value behind the others, for which there is room.
fn put_behind<T: Drop>(values: &mut Vec<T>, value: T)
    requires { vec_len values.old < vec_capacity values.old }
    ensures items { values.new.items ≡ values.old.items ++ value ∷ [] }
    ensures len { vec_len values.new ≡ vec_len values.old + 1 }
    ensures capacity { vec_capacity values.old ≤ vec_capacity values.new }
{
    if values.push(value).is_err() {
        unreachable!();
    }
}

impl Threads {
    /// The threads of no slots. It takes no memory.
    #[tactic(auto, using(crate::proofs::ChangeLemmas::no_threads))]
    pub fn new(alloc: Global) -> Threads
        ensures { AreThreads [] result }
    {
        Threads {
            alloc,
            firsts: FirstNumbers::new(alloc),
            links: Vec::new(alloc),
            last_answers: Vec::new(alloc),
        }
    }

    /// The threads of these slots, which are fewer than 4,294,967,295.
    ///
    /// The error comes where there is no memory.
    pub fn of(alloc: Global, slots: &Slots) -> Result<Threads, AllocError>
        requires { length slots.now + 1 < 2 ^ 32 }
        ensures { IfOk result (λ threads. AreThreads slots.now threads) }
    {
        let mut threads = Threads::new(alloc);
        let slots = slots.as_slice();
        for place in 0..slots.len() {
            threads.add_slot(&slots[place])?;
        }
        Ok(threads)
    }

    /// Makes the message of this number the last answer to its original.
    fn hang(&mut self, original: u32, number: u32)
        requires some { 0 < original }
        requires within { original ≤ length self.old.links.items }
        requires lasts { length self.old.last_answers.items ≡ length self.old.links.items }
        requires last { slice_index self.old.last_answers.items (original - 1) ≤ length self.old.links.items }
        ensures links { (place : ℕ) (other : Link) → place < length self.old.links.items → slice_index_or self.new.links.items place other ≡ hung original number (slice_index self.old.last_answers.items (original - 1)) place (slice_index_or self.old.links.items place other) }
        ensures count { length self.new.links.items ≡ length self.old.links.items }
        ensures lasts { self.new.last_answers.items ≡ slice_set self.old.last_answers.items (original - 1) number }
        ensures firsts { self.new.firsts ≡ self.old.firsts }
    {
        let place = original as usize - 1;
        let previous = self.last_answers[place];
        if previous == 0 {
            self.links[place].first = number;
        } else {
            self.links[previous as usize - 1].next = number;
        }
        self.last_answers[place] = number;
    }

    /// Takes the memory for the links of so many slots more.
    fn reserve(&mut self, count: usize) -> Result<(), AllocError>
        ensures links { self.new.links.items ≡ self.old.links.items }
        ensures lasts { self.new.last_answers.items ≡ self.old.last_answers.items }
        ensures firsts { self.new.firsts ≡ self.old.firsts }
        ensures room { OnOk result (HasRoom count self.new) }
    {
        self.links.reserve(count)?;
        self.last_answers.reserve(count)
    }

    /// Adds the links of a slot at the end that has this number and this original, or 0, where there is room for them.
    fn add_link(&mut self, original: u32, number: u32)
        requires slots { (slots : List Slot) × AreChains slots self.old.links.items self.old.last_answers.items }
        requires within { original ≤ length self.old.links.items }
        requires room { HasRoom 1 self.old }
        ensures chains { (slots : List Slot) (s : Slot) → AreChains slots self.old.links.items self.old.last_answers.items → original ≡ slot_original slots (Some s) → number ≡ suc (length slots) → AreChains (slots ++ s ∷ []) self.new.links.items self.new.last_answers.items }
        ensures firsts { self.new.firsts ≡ self.old.firsts }
        ensures room { original ≡ 0 → (count : ℕ) → HasRoom (count + 1) self.old → HasRoom count self.new }
    {
        let link = Link {
            to: original,
            first: 0,
            next: 0,
        };
        put_behind(&mut self.links, link);
        put_behind(&mut self.last_answers, 0);
        if original != 0 {
            self.hang(original, number);
        }
    }

    /// Adds a message of these ids at the end. The list with it has fewer than 4,294,967,295 slots.
    ///
    /// The error comes where there is no memory. They are those of the same slots then.
    pub fn add(&mut self, msgid: &[u8], replyid: &[u8]) -> Result<(), AllocError>
        requires slots { AreOfSlots self.old }
        requires few { (slots : List Slot) → AreThreads slots self.old → length slots + 2 < 2 ^ 32 }
        ensures added { OnOk result ((slots : List Slot) (m : Message) → AreThreads slots self.old → m.msgid ≡ msgid.now → m.replyid ≡ replyid.now → AreThreads (slots ++ Held m ∷ []) self.new) }
        ensures same { OnErr result ((slots : List Slot) → AreThreads slots self.old → AreThreads slots self.new) }
    {
        let original = self.firsts.original(replyid);
        let number = self.links.len() as u32 + 1;
        self.reserve(1)?;
        self.firsts.add(self.alloc, msgid, number)?;
        self.add_link(original, number);
        Ok(())
    }

    /// Adds a slot at the end that holds no message, where there is room for its links.
    fn add_gone(&mut self)
        requires slots { AreOfSlots self.old }
        requires few { (slots : List Slot) → AreThreads slots self.old → length slots + 2 < 2 ^ 32 }
        requires room { HasRoom 1 self.old }
        ensures added { (slots : List Slot) → AreThreads slots self.old → AreThreads (slots ++ Gone ∷ []) self.new }
        ensures room { (count : ℕ) → HasRoom (count + 1) self.old → HasRoom count self.new }
    {
        let number = self.links.len() as u32 + 1;
        self.add_link(0, number);
    }

    /// Adds a slot at the end.
    fn add_slot(&mut self, slot: &Slot) -> Result<(), AllocError>
        requires slots { AreOfSlots self.old }
        requires few { (slots : List Slot) → AreThreads slots self.old → length slots + 2 < 2 ^ 32 }
        ensures { OnOk result ((slots : List Slot) → AreThreads slots self.old → AreThreads (slots ++ slot.now ∷ []) self.new) }
    {
        match slot {
            Slot::Gone => {
                self.reserve(1)?;
                self.add_gone();
                Ok(())
            }
            Slot::Held(message) => self.add(message.msgid.as_slice(), message.replyid.as_slice()),
        }
    }

    /// Adds slots at the end that hold no message, up to this many.
    ///
    /// The error comes where there is no memory. They are those of the same slots then.
    pub fn fill(&mut self, count: usize) -> Result<(), AllocError>
        requires slots { AreOfSlots self.old }
        requires few { count + 1 < 2 ^ 32 }
        ensures added { OnOk result ((slots : List Slot) → AreThreads slots self.old → AreThreads (slots ++ replicate (count - length slots) Gone) self.new) }
        ensures same { OnErr result ((slots : List Slot) → AreThreads slots self.old → AreThreads slots self.new) }
    {
        let missing = count.saturating_sub(self.links.len());
        self.reserve(missing)?;
        for _ in 0..missing {
            self.add_gone();
        }
        Ok(())
    }

    /// The original of a message that is added next and answers this id: the smallest number of a message of
    /// that id, and 0 where the id is empty or no message has it. It takes no memory.
    #[tactic(auto, using(crate::proofs::FirstLemmas::original_kept))]
    pub fn original(&self, replyid: &[u8]) -> u32
        ensures { (slots : List Slot) → AreThreads slots self.now → result ≡ original_behind slots replyid.now }
    {
        self.firsts.original(replyid)
    }

    /// The one link number of an older message that a message changes which is added next and answers this id,
    /// or None where it changes none. It takes no memory.
    pub fn link_new(&self, replyid: &[u8]) -> Option<LinkPatch>
        requires { AreOfSlots self.now }
        ensures { (slots : List Slot) → AreThreads slots self.now → result ≡ link_change slots replyid.now }
    {
        let original = self.original(replyid);
        if original == 0 {
            return None;
        }
        let last = self.last_answers[original as usize - 1];
        let number = self.links.len() as u32 + 1;
        Some(change(original, last, number))
    }

    /// The links of the slot in a place from 0, which is there.
    pub fn link(&self, place: usize) -> Link
        requires { (slots : List Slot) × AreThreads slots self.now × (place < length slots) }
        ensures { (slots : List Slot) → AreThreads slots self.now → result ≡ link_of slots (place + 1) }
    {
        self.links[place]
    }

    /// The links of the slot in a place from 0, or None past the last.
    fn found(&self, place: usize) -> Option<Link>
        ensures { result ≡ slice_get self.now.links.items place }
    {
        self.links.get(place).copied()
    }

    /// The number of the message that the one of this number answers, or 0 where it answers none that is
    /// there or no slot has the number.
    pub fn reply_to(&self, number: u32) -> u32
        ensures { (slots : List Slot) → AreThreads slots self.now → result ≡ original_in slots number }
    {
        if number == 0 {
            return 0;
        }
        match self.found(number as usize - 1) {
            Some(link) => link.to,
            None => 0,
        }
    }

    /// Threads of the same slots.
    ///
    /// The error comes where there is no memory.
    pub fn copy(&self, alloc: Global) -> Result<Threads, AllocError>
        ensures { IfOk result (λ copy. (slots : List Slot) → AreThreads slots self.now → AreThreads slots copy) }
    {
        Ok(Threads {
            alloc,
            firsts: self.firsts.copy(alloc)?,
            links: Vec::from_slice(alloc, self.links.as_slice())?,
            last_answers: Vec::from_slice(alloc, self.last_answers.as_slice())?,
        })
    }
}
