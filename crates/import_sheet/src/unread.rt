ghost use Rattle.std.specs.Prelude.{◌≡◌, ℕ, List, MatchOption};
ghost use Rattle.std.specs.Str.Lines.{lines};
ghost use Rattle.import_sheet.specs.State.{IsNumbered, Ahead, StartsWithText};
ghost use Rattle.import_sheet.specs.Sheet.{AllEmpty};

use crate::fault::{SheetError, SheetRule};
use text_fields::Unread;

/// That the first line breaks a rule.
pub fn breaks(here: Unread<'_>, rule: SheetRule) -> SheetError
    ensures { result ≡ SheetError.Line here.entry.line rule }
{
    SheetError::Line {
        line: here.line,
        rule,
    }
}

/// What begins with the first line that isn't empty, or None where all are.
pub fn without_empty_lines<'a>(start: Unread<'a>) -> Option<Unread<'a>>
    requires { IsNumbered (lines start.text.now) start.line }
    ensures { MatchOption result (AllEmpty (lines start.entry.text.now)) (λ found. (blanks : List (List ℕ)) × AllEmpty blanks × Ahead (lines start.entry.text.now) start.entry.line (lines found.text.now) found.line blanks × StartsWithText (lines found.text.now)) }
{
    let mut here = start;
    while let Some((line, after)) = here.next() {
        if !line.is_empty() {
            return Some(here);
        }
        here = after;
    }
    None
}
