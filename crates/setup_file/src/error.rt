ghost use Rattle.std.specs.Prelude.{◌≡◌};
ghost use Rattle.setup_file.specs.RuleWord.{setup_word};
ghost use Rattle.setup_file.specs.declared.error.SetupError.TheVariants.{OutOfMemory};

use std::alloc::AllocError;
use thiserror::Error;

/// What the first failing line of a setup file breaks. For a conference line the order is `Key`, `Many`,
/// `Number`, `Kind`, `Rules`, `Name`, `Order`; for any other `Key` comes first.
#[derive(Clone, Copy, Debug, PartialEq, Eq)]
pub enum SetupRule {
    /// The line doesn't begin with the expected key and colon.
    Key,
    /// Board, city or phone has over 60 bytes or a byte outside 20h to 7Eh; or the sysop is no user name.
    Text,
    /// The board id isn't 1 to 8 ASCII letters and digits.
    Id,
    /// The serial isn't 1 to 5 digits; or a conference's number isn't 1 to 5 digits of at most 65,535.
    Number,
    /// The zones aren't 0 to 16 numbers of 1 to 5 digits from 1 to 32,767, each above the one before.
    Zones,
    /// A conference's second word isn't `local`, `echo` or `net`.
    Kind,
    /// A conference's third word isn't `-`, `r`, `p` or `rp`.
    Rules,
    /// A conference's name isn't 1 to 13 bytes from 20h to 7Eh.
    Name,
    /// A conference's number isn't above the one before.
    Order,
    /// It is the 65th conference line.
    Many,
    /// The file ends before the first conference line.
    Missing,
}

impl SetupRule {
    /// The word of the rule, as a refusal has it.
    pub fn word(self) -> &'static [u8]
        ensures { result.now ≡ setup_word self }
    {
        match self {
            SetupRule::Key => b"key",
            SetupRule::Text => b"text",
            SetupRule::Id => b"id",
            SetupRule::Number => b"number",
            SetupRule::Zones => b"zones",
            SetupRule::Kind => b"kind",
            SetupRule::Rules => b"rules",
            SetupRule::Name => b"name",
            SetupRule::Order => b"order",
            SetupRule::Many => b"many",
            SetupRule::Missing => b"missing",
        }
    }
}

/// Why the bytes of a setup file aren't read.
#[derive(Clone, Copy, Debug, PartialEq, Eq, Error)]
pub enum SetupError {
    /// This line, counted from 1, is the first that breaks a rule. For `Missing` it is one past the last.
    #[error("line {line} breaks the rule {word}", word = .rule.word().escape_ascii())]
    Line { line: u32, rule: SetupRule },
    /// There was no memory.
    #[error("out of memory")]
    OutOfMemory,
}

impl From<AllocError> for SetupError {
    ghost from_gives = { λ _ e. e ≡ OutOfMemory };

    fn from(_error: AllocError) -> SetupError {
        SetupError::OutOfMemory
    }
}
