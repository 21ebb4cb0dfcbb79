ghost use Rattle.std.specs.Prelude.{◌≡◌};
ghost use Rattle.netmail_rules.specs.RuleWord.{rule_word};

/// Why an uploaded message is refused, in the order in which the rules are tried.
#[derive(Debug, Clone, Copy, PartialEq, Eq)]
pub enum Rule {
    /// The message is marked killed.
    Killed,
    /// The message asks for a password.
    Password,
    /// The header has no number, or one of no conference.
    Conference,
    /// The user isn't a member of the conference.
    Member,
    /// The conference is read-only, and the user isn't the sysop.
    Readonly,
    /// From isn't the user's name.
    Sender,
    /// To is empty or has a byte below 20h, and the message is neither net mail nor a comment.
    To,
    /// Subject has a byte below 20h.
    Subject,
    /// The body would have more than 16,384 bytes.
    Length,
    /// The message is private, and the conference neither is net nor allows that.
    Private,
    /// The conference is net, and the user may not write net mail.
    Netuser,
    /// The conference is net, and the first line is no address line.
    Address,
    /// The conference is net, and the zone isn't one of the board's.
    Zone,
    /// The conference has 9,999 slots, or the data files have no room for the message.
    Full,
}

impl Rule {
    /// The word of the rule, as a verdict line has it.
    pub fn word(self) -> &'static [u8]
        ensures { result.now ≡ rule_word self }
    {
        match self {
            Rule::Killed => b"killed",
            Rule::Password => b"password",
            Rule::Conference => b"conference",
            Rule::Member => b"member",
            Rule::Readonly => b"readonly",
            Rule::Sender => b"sender",
            Rule::To => b"to",
            Rule::Subject => b"subject",
            Rule::Length => b"length",
            Rule::Private => b"private",
            Rule::Netuser => b"netuser",
            Rule::Address => b"address",
            Rule::Zone => b"zone",
            Rule::Full => b"full",
        }
    }
}
