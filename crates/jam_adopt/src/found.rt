ghost use Rattle.std.specs.Prelude.{◌≡◌};
ghost use Rattle.jam_adopt.specs.RuleWord.{foreign_word};

use byte_lists::{Duplicate, List};
use jam_records::Message;
use std::alloc::{AllocError, Global};

/// The rule by which a record of another tool's base is refused.
#[derive(Debug, Clone, Copy, PartialEq, Eq)]
pub enum ForeignRule {
    /// The fixed part of the header, 76 bytes from its offset, passes the end of .JHR, or doesn't begin with the signature of
    /// JAM, or its Revision isn't 1.
    Header,
    /// The subfields pass the end of .JHR, or don't fill SubfieldLen.
    Subfields,
    /// The text, TxtLen bytes from its Offset, passes the end of .JDT.
    Text,
    /// The body that is made of the text has more than 16,384 bytes.
    Length,
}

impl ForeignRule {
    /// The word of the rule, as a verdict line has it.
    pub fn word(self) -> &'static [u8]
        ensures { result.now ≡ foreign_word self }
    {
        match self {
            ForeignRule::Header => b"header",
            ForeignRule::Subfields => b"subfields",
            ForeignRule::Text => b"text",
            ForeignRule::Length => b"length",
        }
    }
}

/// What becomes of a record.
#[derive(Debug, Drop)]
pub enum FoundVerdict {
    /// Its message. One without a MSGID that can be kept has an empty msgid.
    Taken(Message),
    /// It is refused by this rule.
    Refused(ForeignRule),
}

/// A record of another tool's base that isn't passed over.
#[derive(Debug, Drop)]
pub struct Found {
    /// The place of the record in .JDX, from 1.
    pub place: u32,
    /// What becomes of it.
    pub verdict: FoundVerdict,
}

/// What was found, in the order of .JDX.
pub type Foreign = List<Found>;

impl Duplicate for FoundVerdict {
    fn duplicate(&self, alloc: Global) -> Result<FoundVerdict, AllocError> {
        match self {
            FoundVerdict::Taken(message) => Ok(FoundVerdict::Taken(message.duplicate(alloc)?)),
            FoundVerdict::Refused(rule) => Ok(FoundVerdict::Refused(*rule)),
        }
    }
}

impl Duplicate for Found {
    fn duplicate(&self, alloc: Global) -> Result<Found, AllocError> {
        Ok(Found {
            place: self.place,
            verdict: self.verdict.duplicate(alloc)?,
        })
    }
}
