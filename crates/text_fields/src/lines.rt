ghost use Rattle.std.specs.Prelude.{◌≡◌, [], ◌∷◌, ◌++◌, MatchOption, IfOk, OnOk};
ghost use Rattle.std.specs.Str.Lines.{lines, strip_carriage_return};
ghost use Rattle.text_fields.specs.Lines.{crlf_line, is_skipped as skipped_test};

use crate::split::split_at_byte;
use byte_lists::{Bytes, Lines};
use std::alloc::{AllocError, Global};

/// A line without the carriage return at its end.
fn without_return(line: &[u8]) -> &[u8]
    ensures { result.now ≡ strip_carriage_return line.now }
{
    match line {
        [front @ .., b'\r'] => front,
        _ => line,
    }
}

/// The first line of a text, without its end, and what stands behind it; or None where the text is
/// empty. A line ends at LF, and one CR before the LF is dropped. What follows the last LF is one more
/// line where it isn't empty, with a CR at its end if it has one.
pub fn next_line(text: &[u8]) -> Option<(&[u8], &[u8])>
    ensures { MatchOption result (lines text.now ≡ []) (λ parts. lines text.now ≡ parts.0.now ∷ lines parts.1.now) }
{
    if text.is_empty() {
        return None;
    }
    match split_at_byte(text, b'\n') {
        Some((line, rest)) => Some((without_return(line), rest)),
        None => Some((text, b"")),
    }
}

/// The lines of a text, as `next_line` takes them. The error comes where there is no memory.
pub fn lines_of(alloc: Global, text: &[u8]) -> Result<Lines, AllocError>
    ensures { IfOk result (λ all. all ≡ lines text.now) }
{
    let mut all = Lines::new(alloc);
    let mut rest = text;
    while let Some((line, after)) = next_line(rest) {
        all.add(Bytes::from_slice(alloc, line)?)?;
        rest = after;
    }
    Ok(all)
}

/// Whether a line is skipped: an empty one, and one that begins with `#`.
pub fn is_skipped(line: &[u8]) -> bool
    ensures { result ≡ skipped_test line.now }
{
    match line {
        [] => true,
        [first, ..] => *first == b'#',
    }
}

/// Adds a line, and CR LF behind it. The error comes where there is no memory; a part of them may have been added.
pub fn add_line(out: &mut Bytes, line: &[u8]) -> Result<(), AllocError>
    ensures { OnOk result (out.new ≡ out.old ++ crlf_line line.now) }
{
    out.add(line)?;
    out.add(b"\r\n")
}
