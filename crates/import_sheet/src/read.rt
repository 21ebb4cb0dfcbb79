ghost use Rattle.std.specs.Prelude.{◌≡◌, ◌<◌, ◌^◌, ℕ, List, Ok, Err, length, MatchResult, IfOk};
ghost use Rattle.std.specs.Str.Lines.{lines};
ghost use Rattle.byte_lists.specs.Memory.{UnlessMemory};
ghost use Rattle.import_sheet.specs.Sheet.{SheetReads};
ghost use Rattle.import_sheet.specs.Fault.{SheetFault};
ghost use Rattle.import_sheet.specs.State.{IsNumbered, StartsWithText, SheetTaken, SheetFaultOrMemory, FaultAt};
ghost use Rattle.import_sheet.specs.declared.fault.SheetError.TheVariants.{Line};
ghost use Rattle.import_sheet.specs.declared.fault.SheetRule.{SheetRule};
ghost use Rattle.import_sheet.specs.declared.sheet.Sheet.{Sheet};

use crate::body::body_of;
use crate::fault::SheetError;
use crate::headers::headers_of;
use crate::sheet::{Sheet, Sheets};
use crate::unread::without_empty_lines;
use std::alloc::Global;
use text_fields::Unread;

/// The message that begins with the first line, and what stands behind it.
fn sheet_of(alloc: Global, start: Unread<'_>) -> Result<(Sheet, Unread<'_>), SheetError>
    requires numbered { IsNumbered (lines start.text.now) start.line }
    requires begun { StartsWithText (lines start.text.now) }
    ensures { MatchResult result (λ taken. SheetTaken (lines start.entry.text.now) start.entry.line taken.0 (lines taken.1.text.now) taken.1.line) (SheetFaultOrMemory (FaultAt (lines start.entry.text.now) start.entry.line)) }
{
    let (found, behind) = headers_of(start)?;
    let (body, rest) = body_of(alloc, behind)?;
    Ok((found.sheet(alloc, body)?, rest))
}

/// The messages of a file, or its first fault.
fn sheets_in(alloc: Global, bytes: &[u8]) -> Result<Sheets, SheetError>
    requires { length bytes.now < 2 ^ 31 }
    ensures { MatchResult result (SheetReads bytes.now) (SheetFaultOrMemory (SheetFault bytes.now)) }
{
    let mut sheets = Sheets::new(alloc);
    let mut here = Unread {
        text: bytes,
        line: 1,
    };
    while let Some(start) = without_empty_lines(here) {
        let (sheet, rest) = sheet_of(alloc, start)?;
        sheets.add(sheet)?;
        here = rest;
    }
    Ok(sheets)
}

/// The messages of an import sheet, or its first failing line with the rule that it breaks. The answer
/// may be want of memory in place of either. The bytes are fewer than 2^31.
pub fn read_sheet(alloc: Global, bytes: &[u8]) -> Result<Sheets, SheetError>
    requires { length bytes.now < 2 ^ 31 }

    // Messages are answered exactly where the bytes read as them, unless memory runs out.
    ensures ok { IfOk result (λ sheets. SheetReads bytes.now sheets) }
    ensures only_ok { (sheets : List Sheet) → SheetReads bytes.now sheets → UnlessMemory SheetError.OutOfMemory result (Ok sheets) }

    // So is a line with its rule, exactly where it is the first that fails.
    ensures fault { (line : ℕ) (rule : SheetRule) → result ≡ Err (Line line rule) → SheetFault bytes.now line rule }
    ensures only_fault { (line : ℕ) (rule : SheetRule) → SheetFault bytes.now line rule → UnlessMemory SheetError.OutOfMemory result (Err (Line line rule)) }
{
    sheets_in(alloc, bytes)
}
