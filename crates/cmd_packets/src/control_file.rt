ghost use Rattle.std.specs.Prelude.{◌≡◌, IsTrue, IfOk};
ghost use Rattle.shelf_files.specs.Halts.{Comes, ShelfCauses};
ghost use Rattle.cmd_packets.specs.Packets.{ControlOf, IsControl, control_halt};

use door_outside::{Shelf, ShelfName};
use qwk_control::{Control, ControlError, read_control};
use shelf_files::{FILE_LIMIT, Halt, Refusal, file_in};
use std::alloc::Global;

/// What a fault of CONTROL.DAT is refused as.
fn halt_of(error: ControlError) -> Halt
    ensures { result ≡ control_halt error }
{
    match error {
        ControlError::TooFewLines { line } => Halt::Refused(Refusal::ControlShort(line)),
        ControlError::BadNumber { line } => Halt::Refused(Refusal::ControlNumber(line)),
        ControlError::BadBoardId => Halt::Refused(Refusal::ControlId),
        ControlError::OutOfMemory => Halt::OutOfMemory,
    }
}

/// What CONTROL.DAT says, refused where it isn't there, is too long or has a fault.
pub fn control_in<S: Shelf>(alloc: Global, shelf: &mut S, name: &ShelfName) -> Result<Control, Halt>
    ensures control { IsTrue S.tells → Comes result (ControlOf (S.files shelf.old) name.now) }
    ensures read { IfOk result IsControl }
    ensures unchanged { IsTrue S.tells → S.files shelf.new ≡ S.files shelf.old }
    ensures causes { ShelfCauses (S.faults shelf.old) (S.faults shelf.new) result }
{
    let bytes = file_in(alloc, shelf, name, FILE_LIMIT)?;
    match read_control(alloc, bytes.as_slice()) {
        Ok(control) => Ok(control),
        Err(error) => Err(halt_of(error)),
    }
}
