use byte_lists::{Duplicate, List};
use std::alloc::{AllocError, Global};

/// A message of a board that a user is offered.
#[derive(Debug, Clone, Copy, PartialEq, Eq)]
pub struct OfferedMessage {
    /// The place of its conference, from 0.
    pub place: u8,
    /// Its message number, from 1.
    pub number: u32,
}

impl Duplicate for OfferedMessage {
    fn duplicate(&self, _alloc: Global) -> Result<OfferedMessage, AllocError> {
        Ok(*self)
    }
}

/// The messages that a user is offered, by place and then by number.
pub type Offered = List<OfferedMessage>;
