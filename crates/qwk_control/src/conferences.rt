ghost use Rattle.std.specs.Prelude.{◌≡◌, ◌≤◌, ◌+◌, ◌*◌, ℕ, List, ◌∷◌, length, MatchResult};
ghost use Rattle.std.specs.Str.Lines.{lines};
ghost use Rattle.qwk_control.specs.Line.{PlaceLine};
ghost use Rattle.qwk_control.specs.Control.{ListedRead};
ghost use Rattle.qwk_control.specs.Fault.{FaultBehind, MemoryOr};

use crate::control::Listed;
use crate::fault::ControlError;
use crate::lines::wanted_line;
use crate::number::place_number;
use byte_lists::Bytes;
use std::alloc::Global;

/// The number and the name of the conference in a place, from 0, whose lines begin the text, and what
/// stands behind them.
fn conference_of(text: &[u8], place: usize) -> Result<(u16, &[u8], &[u8]), ControlError>
    requires { place ≤ 65535 }
    ensures { MatchResult result
        (λ found. (number : List ℕ) × (lines text.now ≡ number ∷ found.1.now ∷ lines found.2.now) × PlaceLine number found.0)
        (FaultBehind (11 + 2 * place) (lines text.now) (13 + 2 * place)) }
{
    let line = 12 + 2 * place;
    let (first, after) = wanted_line(text, line)?;
    let Some(number) = place_number(first) else {
        return Err(ControlError::BadNumber { line: line as u32 });
    };
    let (name, rest) = wanted_line(after, line + 1)?;
    Ok((number, name, rest))
}

/// The conferences, whose lines begin the text, and what stands behind them. The last is in this place,
/// from 0.
pub fn conferences_of(
    alloc: Global,
    text: &[u8],
    last: u16,
) -> Result<(Listed, &[u8]), ControlError>
    ensures { MatchResult result
        (λ found. (length found.0 ≡ last + 1) × ListedRead (lines text.now) found.0 (lines found.1.now))
        (MemoryOr (FaultBehind 11 (lines text.now) (13 + 2 * last))) }
{
    let mut listed = Listed::new(alloc);
    let mut rest = text;
    for i in 0..last as usize + 1 {
        let (number, name, after) = conference_of(rest, i)?;
        listed.add((number, Bytes::from_slice(alloc, name)?))?;
        rest = after;
    }
    Ok((listed, rest))
}
