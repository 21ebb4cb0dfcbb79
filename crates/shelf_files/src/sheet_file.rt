//! The sheet under a name.
ghost use Rattle.std.specs.Prelude.{◌≡◌, IsTrue, IfOk};
ghost use Rattle.shelf_files.specs.Halts.{Comes, ShelfCauses};
ghost use Rattle.shelf_files.specs.Sheets.{SheetOf, AreSheets, sheet_halt};

use crate::halt::Halt;
use crate::refusal::Refusal;
use crate::shelf_file::{FILE_LIMIT, file_in};
use door_outside::{Shelf, ShelfName};
use import_sheet::{SheetError, Sheets, read_sheet};
use std::alloc::Global;

/// Why a command stops at a fault of a sheet.
fn halt_of(error: SheetError) -> Halt
    ensures { result ≡ sheet_halt error }
{
    match error {
        SheetError::Line { line, rule } => Halt::Refused(Refusal::Sheet { line, rule }),
        SheetError::OutOfMemory => Halt::OutOfMemory,
    }
}

/// The entries of the sheet under a name, refused where it isn't there, is too long or has a fault.
pub fn sheet_in<S: Shelf>(alloc: Global, shelf: &mut S, name: &ShelfName) -> Result<Sheets, Halt>
    ensures sheet { IsTrue S.tells → Comes result (SheetOf (S.files shelf.old) name.now) }
    ensures read { IfOk result AreSheets }
    ensures unchanged { IsTrue S.tells → S.files shelf.new ≡ S.files shelf.old }
    ensures causes { ShelfCauses (S.faults shelf.old) (S.faults shelf.new) result }
{
    let bytes = file_in(alloc, shelf, name, FILE_LIMIT)?;
    match read_sheet(alloc, bytes.as_slice()) {
        Ok(sheets) => Ok(sheets),
        Err(error) => Err(halt_of(error)),
    }
}
