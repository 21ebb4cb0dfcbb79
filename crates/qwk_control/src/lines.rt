ghost use Rattle.std.specs.Prelude.{◌≡◌, ◌+◌, ◌<◌, ◌^◌, [], ◌∷◌, ◌++◌, length, drop, MatchResult};
ghost use Rattle.std.specs.Str.Lines.{lines};
ghost use Rattle.qwk_control.specs.Line.{or_empty, texts};
ghost use Rattle.qwk_control.specs.declared.fault.ControlError.TheVariants.{TooFewLines};

use crate::fault::ControlError;
use text_fields::next_line;

/// The first line of a text, which is line `place` of its file, and what stands behind it.
pub fn wanted_line(text: &[u8], place: usize) -> Result<(&[u8], &[u8]), ControlError>
    requires { place < 2 ^ 31 }
    ensures { MatchResult result (λ found. lines text.now ≡ found.0.now ∷ lines found.1.now) (λ fault. (fault ≡ TooFewLines place) × (lines text.now ≡ [])) }
{
    match next_line(text) {
        Some(found) => Ok(found),
        None => Err(ControlError::TooFewLines { line: place as u32 }),
    }
}

/// Takes as many lines of a text as there is room for, of which the first is line `place` of its file.
/// What stands behind them is answered.
pub fn take_lines<'a>(
    text: &'a [u8],
    place: usize,
    taken: &mut [&'a [u8]],
) -> Result<&'a [u8], ControlError>
    requires { place + length taken.old < 2 ^ 31 }
    ensures taken { MatchResult result (λ rest. lines text.now ≡ texts taken.new ++ lines rest.now) (λ fault. (fault ≡ TooFewLines (place + length (lines text.now))) × (length (lines text.now) < length taken.old)) }
    ensures count { length taken.new ≡ length taken.old }
{
    let mut rest = text;
    for i in 0..taken.len() {
        let (line, after) = wanted_line(rest, place + i)?;
        taken[i] = line;
        rest = after;
    }
    Ok(rest)
}

/// The first line of a text, or an empty one where there is none, and what stands behind it.
pub fn line_or_empty(text: &[u8]) -> (&[u8], &[u8])
    ensures line { result.0.now ≡ or_empty (lines text.now) 1 }
    ensures rest { lines result.1.now ≡ drop 1 (lines text.now) }
{
    next_line(text).unwrap_or((b"", b""))
}
