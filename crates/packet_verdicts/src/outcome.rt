use byte_lists::{Duplicate, List};
use netmail_rules::Rule;
use std::alloc::{AllocError, Global};

/// What became of an uploaded message.
#[derive(Debug, Clone, Copy, PartialEq, Eq)]
pub enum Outcome {
    /// The board keeps it, in the conference of a number, under a message number from 1.
    Posted {
        /// The number of the conference.
        conference: u16,
        /// The message number.
        number: u32,
    },
    /// This is the first rule that refuses it.
    Refused(Rule),
}

impl Duplicate for Outcome {
    fn duplicate(&self, _alloc: Global) -> Result<Outcome, AllocError> {
        Ok(*self)
    }
}

/// What became of the messages of a packet, in their order.
pub type Outcomes = List<Outcome>;
