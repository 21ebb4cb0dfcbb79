//! The command `check`.
ghost use Rattle.std.specs.Prelude.{IsTrue};
ghost use Rattle.door_outside.specs.Shelf.{ShelfFiles};
ghost use Rattle.entry_runs.specs.Door.{World};
ghost use Rattle.entry_runs.specs.Entry.{IsAt, Works};
ghost use Rattle.entry_runs.specs.Promise.{ended};
ghost use Rattle.cmd_board.specs.Causes.{HostHasCauses};
ghost use Rattle.cmd_board.specs.Check.{checks};
ghost use Rattle.cmd_board.specs.Halts.{told};
ghost use Rattle.cmd_board.specs.Kept.{AreSure, IsKept};
ghost use Rattle.cmd_board.specs.State.{State, Stores};

use crate::finding::find;
use crate::halt::BoardHalt;
use crate::report::report;
use byte_lists::Bytes;
use door_outside::Host;
use mail_board::Loaded;
use shelf_files::Refusal;
use std::alloc::Global;

/// What the board has, as a text. It is refused where there is no board.
pub fn check<H: Host>(
    alloc: Global,
    host: &mut H,
    kept: &mut Option<Loaded>,
) -> Result<Bytes, BoardHalt>
    requires sure { AreSure kept.old }
    requires kept { IsTrue H.tells → IsKept kept.old (H.disk host.old) }
    ensures works { IsTrue H.tells → (world : World State) (shelf : ShelfFiles) → IsAt Stores world (H.disk host.old) shelf → Works Stores checks world (H.disk host.old) (H.disk host.new) shelf (told (λ text. text) result) }
    ensures kept { IsTrue H.tells → IsKept kept.new (H.disk host.new) }
    ensures sure { AreSure kept.new }
    ensures causes { HostHasCauses H.disk_faults H.voice_faults host.old host.new (ended (told (λ text. text) result)) }
{
    find(alloc, host, kept)?;
    match &*kept {
        Some(Loaded::Ready(board)) => Ok(report(alloc, board)?),
        _ => Err(BoardHalt::Refused(Refusal::NotMade)),
    }
}
