// The board that a host holds, read once in a run.
ghost use Rattle.std.specs.Prelude.{◌≡◌, ◌+◌, ◌≤◌, OnOk, IsTrue};
ghost use Rattle.board_layout.specs.Rules.{HasReadCause};
ghost use Rattle.entry_runs.specs.Entry.{Finds};
ghost use Rattle.intent_journal.specs.Journal.{intent_of};
ghost use Rattle.intent_journal.specs.Patches.{byte_count};
ghost use Rattle.intent_journal.specs.Recovered.{recovered};
ghost use Rattle.mail_board.specs.Loading.{AreOld};
ghost use Rattle.cmd_board.specs.Kept.{AreSure, IsStateFound, IsKept, IsBoardRead, found};
ghost use Rattle.cmd_board.specs.State.{State, Stores, migrated};

use door_outside::Host;
use mail_board::{Board, LoadError, Loaded};
use std::alloc::Global;

/// Reads the board, or that there is none, where that isn't kept yet. Nothing is changed but that a crash's intent is
/// carried out, and that a board in files of the ledger's first version is then put into files of today's.
pub fn find<H: Host>(
    alloc: Global,
    host: &mut H,
    kept: &mut Option<Loaded>,
) -> Result<(), LoadError>
    requires sure { AreSure kept.old }
    requires kept { IsTrue H.tells → IsKept kept.old (H.disk host.old) }
    ensures finds { IsTrue H.tells → (state : State) → Stores state (recovered (H.disk host.old).files) → Finds Stores state (migrated state) (H.disk host.old) (H.disk host.new) (found result) }
    ensures state { IsTrue H.tells → (state : State) → Stores state (recovered (H.disk host.old).files) → IsStateFound state kept.new result }
    ensures kept { IsTrue H.tells → IsKept kept.new (H.disk host.new) }
    ensures sure { AreSure kept.new }
    ensures read { OnOk result (IsBoardRead kept.new) }
    ensures wrote { IsTrue H.tells → ¬ AreOld (recovered (H.disk host.old).files) → (H.disk host.new).wrote ≤ (H.disk host.old).wrote + byte_count (intent_of (H.disk host.old).files) + 1 }
    ensures cause { HasReadCause (H.disk_faults host.old) (H.disk_faults host.new) result }
    ensures voice { H.voice_faults host.new ≡ H.voice_faults host.old }
{
    if kept.is_none() {
        *kept = Some(Board::load(alloc, host)?);
    }
    Ok(())
}
