ghost use Rattle.std.specs.Prelude.{◌≡◌};
ghost use Rattle.fts_packet.specs.RuleWord.{packet_word};
ghost use Rattle.fts_packet.specs.declared.fault.FtsError.TheVariants.{OutOfMemory};

use std::alloc::AllocError;
use thiserror::Error;

/// What the first fault of a packet breaks.
#[derive(Clone, Copy, Debug, PartialEq, Eq)]
pub enum FtsRule {
    /// The file has fewer than the 58 bytes of a header.
    Short,
    /// The header is of another type than 2.
    WrongType,
    /// Where a message should stand is a number other than 2 and 0.
    Kind,
    /// The file ends inside a message.
    Cut,
    /// To or From has no NUL in its 36 bytes, or Subject in its 72.
    Field,
}

impl FtsRule {
    /// The word of the rule, as a refusal has it.
    pub fn word(self) -> &'static [u8]
        ensures { result.now ≡ packet_word self }
    {
        match self {
            FtsRule::Short => b"short",
            FtsRule::WrongType => b"type",
            FtsRule::Kind => b"kind",
            FtsRule::Cut => b"cut",
            FtsRule::Field => b"field",
        }
    }
}

/// Why there are no messages.
#[derive(Clone, Copy, Debug, PartialEq, Eq, Error)]
pub enum FtsError {
    /// The bytes break the layout. This is the first rule that they break, and the byte, from 0, where what
    /// breaks it begins: 0 for `Short`, 18 for `WrongType`, else where the message begins.
    #[error("the packet breaks the rule {word} at byte {at}", word = .rule.word().escape_ascii())]
    Fault { rule: FtsRule, at: u32 },
    /// There was no memory for the messages.
    #[error("out of memory")]
    OutOfMemory,
}

impl From<AllocError> for FtsError {
    ghost from_gives = { λ _ e. e ≡ OutOfMemory };

    fn from(_error: AllocError) -> FtsError {
        FtsError::OutOfMemory
    }
}
