ghost use Rattle.std.specs.Prelude.{◌≡◌, IsTrue};
ghost use Rattle.shelf_files.specs.Halts.{Comes, ShelfCauses};
ghost use Rattle.cmd_board.specs.Init.{SetupOf};

use door_outside::{Shelf, ShelfName};
use setup_file::{Setup, SetupError};
use shelf_files::{FILE_LIMIT, Halt, Refusal, file_in};
use std::alloc::Global;

/// What a setup file says, refused where it isn't there, is too long or breaks a rule.
pub(crate) fn setup_in<S: Shelf>(
    alloc: Global,
    shelf: &mut S,
    name: &ShelfName,
) -> Result<Setup, Halt>
    ensures setup { IsTrue S.tells → Comes result (SetupOf (S.files shelf.old) name.now) }
    ensures unchanged { IsTrue S.tells → S.files shelf.new ≡ S.files shelf.old }
    ensures causes { ShelfCauses (S.faults shelf.old) (S.faults shelf.new) result }
{
    let bytes = file_in(alloc, shelf, name, FILE_LIMIT)?;
    match Setup::parse(alloc, bytes.as_slice()) {
        Ok(setup) => Ok(setup),
        Err(SetupError::Line { line, rule }) => Err(Halt::Refused(Refusal::Setup { line, rule })),
        Err(SetupError::OutOfMemory) => Err(Halt::OutOfMemory),
    }
}
