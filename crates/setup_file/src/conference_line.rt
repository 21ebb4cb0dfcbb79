ghost use Rattle.std.specs.Prelude.{◌≡◌, ℕ, List, length, IfOk, Option, MatchResult, MatchOption, true, false};
ghost use Rattle.std.specs.Str.Lines.{lines};
ghost use Rattle.setup_file.specs.Words.{value_behind as value_in, number_of as number_in};
ghost use Rattle.setup_file.specs.Rules.{conference_key, is_place_number, is_out_of_order as is_out_of_order_test, conference_value_rules, conference_rules};
ghost use Rattle.setup_file.specs.Fault.{LinesFault};
ghost use Rattle.setup_file.specs.State.{IsNumbered, Kept, SetupFaultOrMemory, Breaks, NoneBroken, conference_of_value as conference_in, PartsAre, ConferencesTaken};

use crate::conference::{Conference, Conferences};
use crate::error::{SetupError, SetupRule};
use crate::texts::is_conference_name;
use crate::unread::{breaks, past_skipped};
use crate::word::{kind_of, number_of, rights_of, split_word, value_behind};
use jam_records::{Bytes, Kind};
use std::alloc::{AllocError, Global};
use text_fields::Unread;

/// What a conference line says.
#[derive(Clone, Copy)]
pub struct Parts<'a> {
    number: u16,
    kind: Kind,
    readonly: bool,
    private: bool,
    name: &'a [u8],
}

/// The number that a word says, or None where it isn't 1 to 5 digits of at most 65,535.
fn place_number(word: &[u8]) -> Option<u16>
    ensures { MatchOption result
        (is_place_number word.now ≡ false)
        (λ n. (is_place_number word.now ≡ true) × (n ≡ number_in word.now)) }
{
    match number_of(word) {
        Some(number) if number <= 65_535 => Some(number as u16),
        _ => None,
    }
}

/// Whether a number isn't above the one before, where there is one.
fn is_out_of_order(last: Option<u16>, number: u16) -> bool
    ensures { result ≡ is_out_of_order_test last number }
{
    match last {
        None => false,
        Some(last) => number <= last,
    }
}

/// What a value says of a conference behind so many, of which the last has this number; or the rule that
/// it breaks.
fn parts_of(value: &[u8], count: usize, last: Option<u16>) -> Result<Parts<'_>, SetupRule>
    ensures { MatchResult result
        (λ parts. NoneBroken (conference_value_rules count last value.now) × PartsAre value.now parts)
        (Breaks (conference_value_rules count last value.now)) }
{
    if count >= 64 {
        return Err(SetupRule::Many);
    }
    let (first, behind_first) = split_word(value);
    let Some(number) = place_number(first) else {
        return Err(SetupRule::Number);
    };
    let (second, behind_second) = split_word(behind_first);
    let Some(kind) = kind_of(second) else {
        return Err(SetupRule::Kind);
    };
    let (third, name) = split_word(behind_second);
    let Some((readonly, private)) = rights_of(third) else {
        return Err(SetupRule::Rules);
    };
    if !is_conference_name(name) {
        return Err(SetupRule::Name);
    }
    if is_out_of_order(last, number) {
        return Err(SetupRule::Order);
    }
    Ok(Parts {
        number,
        kind,
        readonly,
        private,
        name,
    })
}

/// What a line says of a conference behind so many, of which the last has this number; or the rule that
/// it breaks.
fn line_parts(line: &[u8], count: usize, last: Option<u16>) -> Result<Parts<'_>, SetupRule>
    ensures { MatchResult result
        (λ parts. NoneBroken (conference_rules count last line.now) × PartsAre (value_in conference_key line.now) parts)
        (Breaks (conference_rules count last line.now)) }
{
    match value_behind(b"conference:", line) {
        Some(value) => parts_of(value, count, last),
        None => Err(SetupRule::Key),
    }
}

impl Parts<'_> {
    /// The conference, with a copy of the name.
    fn conference(self, alloc: Global) -> Result<Conference, AllocError>
        ensures { (value : List ℕ) → PartsAre value self.entry → IfOk result (λ c. c ≡ conference_in value) }
    {
        Ok(Conference {
            number: self.number,
            kind: self.kind,
            readonly: self.readonly,
            private: self.private,
            name: Bytes::from_slice(alloc, self.name)?,
        })
    }
}

/// The conferences, whose lines are all that count from here on.
pub fn conferences_of(alloc: Global, start: Unread<'_>) -> Result<Conferences, SetupError>
    requires { IsNumbered (lines start.text.now) start.line }
    ensures { (all kept : List (List ℕ)) → length kept ≡ 7 → Kept all (lines start.entry.text.now) start.entry.line kept
        → MatchResult result (ConferencesTaken all kept) (SetupFaultOrMemory (LinesFault all)) }
{
    let mut conferences = Conferences::new(alloc);
    let mut last = None;
    let mut here = past_skipped(start);
    while let Some((line, after)) = here.next() {
        let parts = match line_parts(line, conferences.len(), last) {
            Ok(parts) => parts,
            Err(rule) => return Err(breaks(here, rule)),
        };
        last = Some(parts.number);
        conferences.add(parts.conference(alloc)?)?;
        here = past_skipped(after);
    }
    if last.is_none() {
        return Err(breaks(here, SetupRule::Missing));
    }
    Ok(conferences)
}
