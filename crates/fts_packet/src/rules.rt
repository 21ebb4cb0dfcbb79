ghost use Rattle.std.specs.Prelude.{◌≡◌};
ghost use Rattle.std.specs.Option.{option_copied};
ghost use Rattle.netmail_rules.specs.Rules.{names_nobody as names_nobody_of, first_refusing};
ghost use Rattle.fts_packet.specs.Tossed.{missing as missing_of, toss_rules};

use crate::packet::FtsMessage;
use crate::rule::TossRule;
use crate::value::is_plain;
use jam_records::Message;

/// The most bytes that a body has.
const MOST: usize = 16_384;

/// Whether a name is missing: it is empty or has a byte below 20h.
fn names_nobody(name: &[u8]) -> bool
    ensures { result ≡ names_nobody_of name.now }
{
    name.is_empty() || !is_plain(name)
}

/// The rule by which a message is refused that no conference takes.
pub fn missing(tag: Option<&[u8]>) -> TossRule
    ensures { result ≡ missing_of (option_copied tag.entry) }
{
    match tag {
        Some(_) => TossRule::Area,
        None => TossRule::Net,
    }
}

/// The first rule that refuses a message with this draft, which a conference takes.
pub fn refusal_of(message: &FtsMessage, draft: &Message) -> Option<TossRule>
    ensures { result ≡ first_refusing (toss_rules message.now draft.now) }
{
    if names_nobody(message.to.as_slice()) {
        return Some(TossRule::To);
    }
    if names_nobody(message.from.as_slice()) {
        return Some(TossRule::From);
    }
    if !is_plain(message.subject.as_slice()) {
        return Some(TossRule::Subject);
    }
    if draft.body.as_slice().len() > MOST {
        return Some(TossRule::Length);
    }
    None
}
