ghost use Rattle.std.specs.Prelude.{◌≡◌};
ghost use Rattle.fts_packet.specs.RuleWord.{toss_word};

/// Why a packed message is refused, in the order in which the rules are tried.
#[derive(Debug, Clone, Copy, PartialEq, Eq)]
pub enum TossRule {
    /// The message has a tag, and no echo conference has that name.
    Area,
    /// The message has no tag, and no conference is net.
    Net,
    /// To is empty or has a byte below 20h.
    To,
    /// From is empty or has a byte below 20h.
    From,
    /// Subject has a byte below 20h.
    Subject,
    /// The body would have more than 16,384 bytes.
    Length,
    /// A message of the conference has its msgid.
    Dupe,
    /// The conference has 9,999 slots, or the data files have no room for the message.
    Full,
}

impl TossRule {
    /// The word of the rule, as a verdict line has it.
    pub fn word(self) -> &'static [u8]
        ensures { result.now ≡ toss_word self }
    {
        match self {
            TossRule::Area => b"area",
            TossRule::Net => b"net",
            TossRule::To => b"to",
            TossRule::From => b"from",
            TossRule::Subject => b"subject",
            TossRule::Length => b"length",
            TossRule::Dupe => b"dupe",
            TossRule::Full => b"full",
        }
    }
}
