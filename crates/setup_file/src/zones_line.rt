ghost use Rattle.std.specs.Prelude.{◌≡◌, ◌<◌, ℕ, List, Some, None, length, IfOk, MatchResult, MatchOption, true, false, ◌&&◌};
ghost use Rattle.std.specs.Str.Lines.{lines};
ghost use Rattle.setup_file.specs.Words.{value_behind as value_in, numbers_of_words, is_number, number_of as number_in};
ghost use Rattle.setup_file.specs.Zones.{is_zone};
ghost use Rattle.setup_file.specs.Rules.{zones_key, zones_fit, zones_rules};
ghost use Rattle.setup_file.specs.Fault.{LinesFault};
ghost use Rattle.setup_file.specs.State.{IsNumbered, Kept, OneMore, SetupFaultOrMemory, BreaksAt, NoneBroken};

use crate::error::{SetupError, SetupRule};
use crate::unread::{breaks, past_skipped};
use crate::word::{next_word, number_of, value_behind};
use crate::zones::{Zones, are_zones};
use std::alloc::{AllocError, Global};
use text_fields::Unread;

/// The zone that a word says, or None where it isn't 1 to 5 digits of a number from 1 to 32,767.
fn zone_of(word: &[u8]) -> Option<u16>
    ensures { MatchOption result
        ((is_number word.now && is_zone (number_in word.now)) ≡ false)
        (λ zone. (is_number word.now ≡ true) × (zone ≡ number_in word.now)) }
{
    match number_of(word) {
        Some(number) if 1 <= number && number <= 32_767 => Some(number as u16),
        _ => None,
    }
}

/// The zones that a value says, or None where it says none.
fn zones_in(alloc: Global, value: &[u8]) -> Result<Option<Zones>, AllocError>
    ensures { IfOk result (λ found. MatchOption found
        (zones_fit value.now ≡ false)
        (λ zones. (zones_fit value.now ≡ true) × (zones ≡ numbers_of_words value.now))) }
{
    let mut zones = Zones::new(alloc);
    let mut here = value;
    while let Some((word, rest)) = next_word(here) {
        let Some(zone) = zone_of(word) else {
            return Ok(None);
        };
        if zones.len() >= 16 {
            return Ok(None);
        }
        zones.add(zone)?;
        here = rest;
    }
    if !are_zones(zones.as_slice()) {
        return Ok(None);
    }
    Ok(Some(zones))
}

/// The zones of a line with this number, or the rule that it breaks.
fn line_zones(alloc: Global, line: &[u8], number: u32) -> Result<Zones, SetupError>
    ensures { MatchResult result
        (λ zones. NoneBroken (zones_rules line.now) × (zones ≡ numbers_of_words (value_in zones_key line.now)))
        (SetupFaultOrMemory (BreaksAt number (zones_rules line.now))) }
{
    let Some(value) = value_behind(b"zones:", line) else {
        return Err(SetupError::Line {
            line: number,
            rule: SetupRule::Key,
        });
    };
    match zones_in(alloc, value)? {
        Some(zones) => Ok(zones),
        None => Err(SetupError::Line {
            line: number,
            rule: SetupRule::Zones,
        }),
    }
}

/// The zones, whose line is the next that counts, and what stands behind it.
pub fn zones_of<'a>(alloc: Global, start: Unread<'a>) -> Result<(Zones, Unread<'a>), SetupError>
    requires { IsNumbered (lines start.text.now) start.line }
    ensures numbered { IfOk result (λ found. IsNumbered (lines found.1.text.now) found.1.line) }
    ensures zones { (all kept : List (List ℕ)) → length kept ≡ 6 → Kept all (lines start.entry.text.now) start.entry.line kept
        → MatchResult result
        (λ found. OneMore all kept (lines found.1.text.now) found.1.line (λ line. found.0 ≡ numbers_of_words (value_in zones_key line)))
        (SetupFaultOrMemory (LinesFault all)) }
{
    let here = past_skipped(start);
    let Some((line, after)) = here.next() else {
        return Err(breaks(here, SetupRule::Missing));
    };
    let zones = line_zones(alloc, line, here.line)?;
    Ok((zones, after))
}
