ghost use Rattle.std.specs.Prelude.{◌≡◌};
ghost use Rattle.std.specs.Str.Lines.{lines};
ghost use Rattle.setup_file.specs.State.{IsNumbered, SkippedTo};

use crate::error::{SetupError, SetupRule};
use text_fields::{Unread, is_skipped};

/// That the first line breaks a rule, or is missing.
pub fn breaks(here: Unread<'_>, rule: SetupRule) -> SetupError
    ensures { result ≡ SetupError.Line here.entry.line rule }
{
    SetupError::Line {
        line: here.line,
        rule,
    }
}

/// What begins with the first line that isn't skipped, or nothing where all are.
pub fn past_skipped<'a>(start: Unread<'a>) -> Unread<'a>
    requires { IsNumbered (lines start.text.now) start.line }
    ensures { SkippedTo (lines start.entry.text.now) start.entry.line (lines result.text.now) result.line }
{
    let mut here = start;
    while let Some((line, after)) = here.next() {
        if !is_skipped(line) {
            return here;
        }
        here = after;
    }
    here
}
