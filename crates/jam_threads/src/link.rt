ghost use Rattle.std.specs.Prelude.{◌≡◌, List, [], slice_get, IfOk};
ghost use Rattle.jam_records.specs.declared.message.Slot.{Slot};
ghost use Rattle.jam_threads.specs.Children.{original};
ghost use Rattle.jam_threads.specs.Links.{AreLinks};

use jam_records::Duplicate;
use std::alloc::{AllocError, Global};
use std::marker::Model;

/// The links of a message (JAM message base proposal, revision 1). Each is a message number, from 1, or 0 for none.
#[derive(Debug, Clone, Copy, PartialEq, Eq)]
pub struct Link {
    /// ReplyTo: the message that this one answers.
    pub to: u32,
    /// Reply1st: the first answer to this message.
    pub first: u32,
    /// ReplyNext: the next answer to the message that this one answers.
    pub next: u32,
}

/// A link number of a message that answers to come may change.
#[derive(Debug, Clone, Copy, PartialEq, Eq)]
pub enum LinkField {
    /// Reply1st.
    First,
    /// ReplyNext.
    Next,
}

/// A link number of a message, and what it becomes.
#[derive(Debug, Clone, Copy, PartialEq, Eq)]
pub struct LinkPatch {
    /// The number of the message, from 1.
    pub number: u32,
    /// Which of its link numbers.
    pub field: LinkField,
    /// The message number that it becomes.
    pub value: u32,
}

/// The links of the messages of a list of slots, in its order.
#[derive(Debug, Drop)]
pub struct Links {
    pub(crate) inner: Vec<Link>,
}

impl Model for Links {
    ghost use Rattle.std.specs.Prelude.{List};
    ghost use Rattle.jam_threads.specs.declared.link.Link.{Link};

    ghost Value = { List Link };

    ghost view = { λ a. a.inner.items };
}

impl Links {
    /// The links of no slots. It takes no memory.
    #[tactic(auto, using(crate::proofs::LookUpLemmas::no_links))]
    pub fn new(alloc: Global) -> Links
        ensures empty { result ≡ [] }
        ensures links { AreLinks [] result }
    {
        Links {
            inner: Vec::new(alloc),
        }
    }

    /// The links of the slot in a place from 0, or None past the last.
    pub fn get(&self, place: usize) -> Option<Link>
        ensures { result ≡ slice_get self.now place }
    {
        self.inner.get(place).copied()
    }

    /// The number of the message that the one of this number answers, or 0 where it answers none that is
    /// there or no slot has the number.
    #[tactic(auto, using(crate::proofs::LookUpLemmas::none_zero, crate::proofs::LookUpLemmas::found_original, crate::proofs::LookUpLemmas::missing_original))]
    pub fn original(&self, number: u32) -> u32
        ensures { (slots : List Slot) → AreLinks slots self.now → result ≡ original slots number }
    {
        if number == 0 {
            return 0;
        }
        match self.get(number as usize - 1) {
            Some(link) => link.to,
            None => 0,
        }
    }

    /// Equal links.
    ///
    /// The error comes where there is no memory.
    pub fn copy(&self, alloc: Global) -> Result<Links, AllocError>
        ensures { IfOk result (λ copy. copy ≡ self.now) }
    {
        let inner = Vec::from_slice(alloc, self.inner.as_slice())?;
        Ok(Links { inner })
    }
}

impl Duplicate for Links {
    fn duplicate(&self, alloc: Global) -> Result<Links, AllocError> {
        self.copy(alloc)
    }
}
