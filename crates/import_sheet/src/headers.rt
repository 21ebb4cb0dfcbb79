ghost use Rattle.std.specs.Prelude.{◌≡◌, ◌≢◌, ◌⊎◌, ℕ, List, [], ◌∷◌, ◌++◌, IfOk, MatchResult};
ghost use Rattle.std.specs.Str.Lines.{lines};
ghost use Rattle.import_sheet.specs.Sheet.{Headers, HasNone};
ghost use Rattle.import_sheet.specs.Fault.{LineBreaks, WholeHeaders};
ghost use Rattle.import_sheet.specs.State.{IsNumbered, StartsWithText, Ahead, HoldsValues, HeadersTaken, SheetFaultOrMemory, FaultAt};
ghost use Rattle.import_sheet.specs.declared.fault.SheetRule.TheVariants as rule;
ghost use Rattle.import_sheet.specs.declared.field.Field.TheVariants as field;

use crate::fault::{SheetError, SheetRule};
use crate::found::Found;
use crate::unread::breaks;
use text_fields::Unread;

/// The values with those of one header line more, which is the first that is unread here.
fn with_header<'a>(
    found: Found<'a>,
    line: &'a [u8],
    here: Unread<'a>,
) -> Result<Found<'a>, SheetError>
    requires { line.now ≢ [] }
    ensures { (headers : List (List ℕ)) → Headers headers → HoldsValues headers found.entry → MatchResult result (λ more. Headers (headers ++ line.now ∷ []) × HoldsValues (headers ++ line.now ∷ []) more) (SheetFaultOrMemory (λ at broken. (at ≡ here.entry.line) × LineBreaks headers line.now broken)) }
{
    match found.with_line(line) {
        Ok(more) => Ok(more),
        Err(rule) => Err(breaks(here, rule)),
    }
}

/// The values, and what stands behind the empty line, which is the first that is unread here; where
/// From and To were there.
fn ended<'a>(
    found: Found<'a>,
    here: Unread<'a>,
    after: Unread<'a>,
) -> Result<(Found<'a>, Unread<'a>), SheetError>
    ensures same { IfOk result (λ taken. (taken.0 ≡ found.entry) × (taken.1 ≡ after.entry)) }
    ensures whole { (headers : List (List ℕ)) → Headers headers → HoldsValues headers found.entry → MatchResult result (λ _. WholeHeaders headers) (SheetFaultOrMemory (λ at broken. (at ≡ here.entry.line) × (broken ≡ rule.Missing) × (HasNone headers field.From ⊎ HasNone headers field.To))) }
{
    if !found.is_whole() {
        return Err(breaks(here, SheetRule::Missing));
    }
    Ok((found, after))
}

/// The values with those of the header lines that follow, and what stands behind the empty line that
/// ends them. Each field has one line, so that there are seven at most.
fn headers_from<'a>(
    found: Found<'a>,
    here: Unread<'a>,
) -> Result<(Found<'a>, Unread<'a>), SheetError>
    requires { IsNumbered (lines here.text.now) here.line }
    ensures { (all headers : List (List ℕ)) (number : ℕ) → StartsWithText all → Headers headers → HoldsValues headers found.entry → Ahead all number (lines here.entry.text.now) here.entry.line headers → MatchResult result (λ taken. HeadersTaken all number taken.0 (lines taken.1.text.now) taken.1.line) (SheetFaultOrMemory (FaultAt all number)) }
{
    let Some((line, after)) = here.next() else {
        return Err(breaks(here, SheetRule::End));
    };
    if line.is_empty() {
        return ended(found, here, after);
    }
    headers_from(with_header(found, line, here)?, after)
}

/// The values of a message's header lines, and what stands behind the empty line that ends them.
pub fn headers_of<'a>(start: Unread<'a>) -> Result<(Found<'a>, Unread<'a>), SheetError>
    requires numbered { IsNumbered (lines start.text.now) start.line }
    requires begun { StartsWithText (lines start.text.now) }
    ensures { MatchResult result (λ taken. HeadersTaken (lines start.entry.text.now) start.entry.line taken.0 (lines taken.1.text.now) taken.1.line) (SheetFaultOrMemory (FaultAt (lines start.entry.text.now) start.entry.line)) }
{
    headers_from(Found::none(), start)
}
