// A board in files of version 1, brought to version 2.
ghost use Rattle.std.specs.Prelude.{◌≡◌, OnOk, IsErrOf, IsFalse, IsTrue};
ghost use Rattle.door_outside.specs.Disk.{AllNow, Between};
ghost use Rattle.intent_journal.specs.Hosts.{IsCalm, IsSettled};
ghost use Rattle.mail_board.specs.Causes.{HasFault};
ghost use Rattle.mail_board.specs.Held.{RestsOn};
ghost use Rattle.mail_board.specs.Loading.{Opens, StandsFound, StandsOld};

use board_layout::{FoundBoard, StoredBoard};
use door_outside::Host;
use intent_journal::{JournalError, commit};
use post_changes::ledger_intent;
use std::alloc::Global;

/// Writes the ledger of a board in version 2, whole or not at all, where the files are those of a board with its outline.
/// All memory is taken before the first write.
fn write_ledger<H: Host>(
    alloc: Global,
    host: &mut H,
    board: &StoredBoard,
) -> Result<(), JournalError>
    requires calm { IsTrue H.tells → IsCalm (H.disk host.old) }
    requires stands { IsTrue H.tells → StandsOld board.now (H.disk host.old).files }
    ensures moments { IsTrue H.tells → Between (H.disk host.old) (H.disk host.new) (Opens (H.disk host.old)) }
    ensures now { IsTrue H.tells → AllNow (H.disk host.new) (Opens (H.disk host.old)) }
    ensures settled { IsTrue H.tells → IsSettled (H.disk host.new) }
    ensures rests { OnOk result (IsTrue H.tells → RestsOn board.now (H.disk host.new)) }
    ensures unchanged { IsErrOf result JournalError.OutOfMemory → host.new ≡ host.old }
    ensures cause { HasFault JournalError.DiskFault (H.disk_faults host.old) (H.disk_faults host.new) result }
    ensures voice { H.voice_faults host.new ≡ H.voice_faults host.old }
{
    let intent = ledger_intent(alloc, board.ledger())?;
    commit(host, &intent)?;
    Ok(())
}

/// Brings the files of a board that was found in version 1 to version 2, whole or not at all, and leaves those of
/// another as they are. It says nothing.
///
/// `OutOfMemory` comes before the first write. `DiskFault` comes only where the host's count of disk faults rose, and
/// leaves the files of either version, which the next load finds.
pub fn migrate<H: Host>(alloc: Global, host: &mut H, found: &FoundBoard) -> Result<(), JournalError>
    requires calm { IsTrue H.tells → IsCalm (H.disk host.old) }
    requires stands { IsTrue H.tells → StandsFound found.now (H.disk host.old).files }

    // A crash at any moment leaves what recovers to the same files, or to these migrated.
    ensures moments { IsTrue H.tells → Between (H.disk host.old) (H.disk host.new) (Opens (H.disk host.old)) }
    ensures now { IsTrue H.tells → AllNow (H.disk host.new) (Opens (H.disk host.old)) }
    ensures settled { IsTrue H.tells → IsSettled (H.disk host.new) }

    ensures rests { OnOk result (IsTrue H.tells → RestsOn found.now.board (H.disk host.new)) }
    ensures unchanged { IsErrOf result JournalError.OutOfMemory → host.new ≡ host.old }
    ensures same { IsFalse found.now.is_old → host.new ≡ host.old }
    ensures cause { HasFault JournalError.DiskFault (H.disk_faults host.old) (H.disk_faults host.new) result }
    ensures voice { H.voice_faults host.new ≡ H.voice_faults host.old }
{
    if found.is_old {
        write_ledger(alloc, host, &found.board)
    } else {
        Ok(())
    }
}
