//! The command `pack`.
ghost use Rattle.std.specs.Prelude.{◌≡◌, ◌≢◌, Err, IsTrue};
ghost use Rattle.cmd_board.specs.Causes.{HostHasCauses};
ghost use Rattle.cmd_board.specs.Halts.{halted, told};
ghost use Rattle.cmd_board.specs.Kept.{AreSure, IsKept};
ghost use Rattle.cmd_board.specs.State.{State, Stores};
ghost use Rattle.door_outside.specs.Shelf.{ShelfFiles};
ghost use Rattle.entry_runs.specs.Door.{World};
ghost use Rattle.entry_runs.specs.Entry.{IsAt, Works};
ghost use Rattle.entry_runs.specs.Promise.{ended};
ghost use Rattle.jam_pack.specs.declared.error.PackError.TheVariants.{Doubt};
ghost use Rattle.cmd_pack.specs.Pack.{packed_line, packs};
ghost use Rattle.cmd_pack.specs.Packing.{pack_halt};

use cmd_board::{BoardHalt, board_in, find, keep_board, place_in, take_board};
use door_outside::Host;
use jam_pack::{Loaded, PackError};
use std::alloc::Global;

/// What a pack on a board in no doubt answers, or why the command isn't carried out.
fn answered(packed: Result<u32, PackError>) -> Result<u32, BoardHalt>
    requires { packed ≢ Err Doubt }
    ensures { result ≡ halted pack_halt packed }
{
    match packed {
        Ok(count) => Ok(count),
        Err(PackError::DiskFault) => Err(BoardHalt::DiskFault),
        Err(PackError::Doubt) => unreachable!(),
        Err(PackError::Damaged(damage)) => Err(BoardHalt::Damaged(damage)),
        Err(PackError::OutOfMemory) => Err(BoardHalt::OutOfMemory),
    }
}

/// Makes the slots of the conference of a number that hold deleted messages Gone, and answers how many did.
///
/// It is refused where there is no board, then where no conference has the number.
pub fn pack<H: Host>(
    alloc: Global,
    host: &mut H,
    kept: &mut Option<Loaded>,
    conference: u32,
) -> Result<u32, BoardHalt>
    requires sure { AreSure kept.old }
    requires kept { IsTrue H.tells → IsKept kept.old (H.disk host.old) }
    ensures works { IsTrue H.tells → (world : World State) (shelf : ShelfFiles) → IsAt Stores world (H.disk host.old) shelf → Works Stores (packs conference) world (H.disk host.old) (H.disk host.new) shelf (told (packed_line conference) result) }
    ensures kept { IsTrue H.tells → IsKept kept.new (H.disk host.new) }
    ensures sure { AreSure kept.new }
    ensures causes { HostHasCauses H.disk_faults H.voice_faults host.old host.new (ended (told (packed_line conference) result)) }
{
    find(alloc, host, kept)?;
    let found = board_in(kept)?;
    let place = place_in(found, conference)?;
    let mut board = take_board(kept)?;
    let packed = jam_pack::pack(alloc, &mut board, host, place);
    keep_board(kept, board);
    answered(packed)
}
