ghost use Rattle.std.specs.Prelude.{◌≡◌};
ghost use Rattle.import_sheet.specs.RuleWord.{sheet_rule_word};
ghost use Rattle.import_sheet.specs.declared.fault.SheetError.TheVariants.{OutOfMemory};

use std::alloc::AllocError;
use thiserror::Error;

/// What the first failing line of a sheet breaks. For one header line `Header` comes before `Twice`, and
/// that before the rule of its value; for one body line `Byte` comes before `Length`.
#[derive(Clone, Copy, Debug, PartialEq, Eq)]
pub enum SheetRule {
    /// A header line begins with none of the words.
    Header,
    /// Its word was there before in this message.
    Twice,
    /// The value of `From:` isn't 1 to 36 bytes, none below 20h.
    From,
    /// The value of `To:` isn't 1 to 36 bytes, none below 20h.
    To,
    /// The value of `Subject:` isn't 0 to 72 bytes, none below 20h.
    Subject,
    /// The value of `Date:` isn't 1 to 10 digits of a number of at most 4,294,967,295.
    Date,
    /// The value of `Msgid:` isn't 1 to 80 bytes, none below 20h.
    Msgid,
    /// The value of `Reply:` isn't 1 to 80 bytes, none below 20h.
    Reply,
    /// The value of `Private:` is neither `yes` nor `no`.
    Private,
    /// The empty line ends the headers, and `From:` or `To:` wasn't there.
    Missing,
    /// A body line holds a carriage return.
    Byte,
    /// With this body line the body, with a carriage return for each line, has over 16,384 bytes.
    Length,
    /// The file ends inside a message.
    End,
}

impl SheetRule {
    /// The word of the rule, as a refusal has it.
    pub fn word(self) -> &'static [u8]
        ensures { result.now ≡ sheet_rule_word self }
    {
        match self {
            SheetRule::Header => b"header",
            SheetRule::Twice => b"twice",
            SheetRule::From => b"from",
            SheetRule::To => b"to",
            SheetRule::Subject => b"subject",
            SheetRule::Date => b"date",
            SheetRule::Msgid => b"msgid",
            SheetRule::Reply => b"reply",
            SheetRule::Private => b"private",
            SheetRule::Missing => b"missing",
            SheetRule::Byte => b"byte",
            SheetRule::Length => b"length",
            SheetRule::End => b"end",
        }
    }
}

/// Why the bytes of a sheet aren't read.
#[derive(Clone, Copy, Debug, PartialEq, Eq, Error)]
pub enum SheetError {
    /// This line, counted from 1, is the first that breaks a rule. For `End` it is one past the last.
    #[error("line {line} breaks the rule {word}", word = .rule.word().escape_ascii())]
    Line { line: u32, rule: SheetRule },
    /// There was no memory.
    #[error("out of memory")]
    OutOfMemory,
}

impl From<AllocError> for SheetError {
    ghost from_gives = { λ _ e. e ≡ OutOfMemory };

    fn from(_error: AllocError) -> SheetError {
        SheetError::OutOfMemory
    }
}
