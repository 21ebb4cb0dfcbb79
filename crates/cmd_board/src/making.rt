// Changes of the board that is kept.
ghost use Rattle.std.specs.Prelude.{◌≡◌, ◌≢◌, Some, None, IsErrOf, IsTrue, OnOk};
ghost use Rattle.mail_board.specs.board_changes.Changed.{made};
ghost use Rattle.board_layout.specs.Board as Boards;
ghost use Rattle.entry_runs.specs.Entry.{Changes};
ghost use Rattle.intent_journal.specs.Recovered.{recovered};
ghost use Rattle.mail_board.specs.Causes.{HasFault};
ghost use Rattle.mail_board.specs.Changes.{changed, Fits};
ghost use Rattle.mail_board.specs.Written.{WritesFew};
ghost use Rattle.mail_board.specs.declared.loading.Loaded.TheVariants as loaded;
ghost use Rattle.cmd_board.specs.Kept.{AreSure, IsBoardRead, IsKept, kept_board};
ghost use Rattle.cmd_board.specs.State.{NotMade, Made, Stores};

use door_outside::Host;
use intent_journal::JournalError;
use mail_board::{Board, Change, ChangeError, Loaded};
use setup_file::Setup;
use std::alloc::Global;

/// Makes a change that fits of the board that is kept, whole or not at all. After a disk fault nothing is kept, and
/// the next run finds which board it is.
pub fn make_change<H: Host>(
    alloc: Global,
    host: &mut H,
    kept: &mut Option<Loaded>,
    change: &Change,
) -> Result<(), JournalError>
    requires board { kept_board kept.old ≢ None }
    requires fits { (b : Boards.Board) → kept_board kept.old ≡ Some b → Fits change.now b }
    requires sure { AreSure kept.old }
    requires kept { IsTrue H.tells → IsKept kept.old (H.disk host.old) }
    // Whichever board the host's files are, with the outline of the one that is kept.
    ensures changes { IsTrue H.tells → (b : Boards.Board) → Stores (Made b) (recovered (H.disk host.old).files) → Changes Stores (Made b) (Made (changed change.now b)) (H.disk host.old) (H.disk host.new) result }
    ensures kept { IsTrue H.tells → IsKept kept.new (H.disk host.new) }
    ensures sure { AreSure kept.new }
    ensures read { OnOk result (IsBoardRead kept.new) }
    ensures unchanged { IsErrOf result JournalError.OutOfMemory → host.new ≡ host.old }
    ensures wrote { IsTrue H.tells → (b : Boards.Board) → kept_board kept.old ≡ Some b → WritesFew change.now b (H.disk host.old).wrote (H.disk host.new).wrote }
    ensures cause { HasFault JournalError.DiskFault (H.disk_faults host.old) (H.disk_faults host.new) result }
    ensures voice { H.voice_faults host.new ≡ H.voice_faults host.old }
{
    let Some(Loaded::Ready(mut board)) = kept.take() else {
        unreachable!()
    };
    match board.change(alloc, host, change) {
        Ok(()) => {
            *kept = Some(Loaded::Ready(board));
            Ok(())
        }
        Err(ChangeError::OutOfMemory) => {
            *kept = Some(Loaded::Ready(board));
            Err(JournalError::OutOfMemory)
        }
        Err(ChangeError::DiskFault) => Err(JournalError::DiskFault),
        Err(ChangeError::Doubt) => unreachable!(),
    }
}

/// Makes the board of a setup, where there is none, whole or not at all. After a disk fault nothing is kept.
pub(crate) fn make_board<H: Host>(
    alloc: Global,
    host: &mut H,
    kept: &mut Option<Loaded>,
    setup: Setup,
    now: u32,
) -> Result<(), JournalError>
    requires none { kept.old ≡ Some loaded.NotMade }
    requires kept { IsTrue H.tells → IsKept kept.old (H.disk host.old) }
    ensures changes { IsTrue H.tells → Changes Stores NotMade (Made (made setup now)) (H.disk host.old) (H.disk host.new) result }
    ensures kept { IsTrue H.tells → IsKept kept.new (H.disk host.new) }
    ensures sure { AreSure kept.new }
    ensures read { OnOk result (IsBoardRead kept.new) }
    ensures unchanged { IsErrOf result JournalError.OutOfMemory → host.new ≡ host.old }
    ensures cause { HasFault JournalError.DiskFault (H.disk_faults host.old) (H.disk_faults host.new) result }
    ensures voice { H.voice_faults host.new ≡ H.voice_faults host.old }
{
    match Board::make(alloc, host, setup, now) {
        Ok(board) => {
            *kept = Some(Loaded::Ready(board));
            Ok(())
        }
        Err(JournalError::OutOfMemory) => Err(JournalError::OutOfMemory),
        Err(JournalError::DiskFault) => {
            *kept = None;
            Err(JournalError::DiskFault)
        }
    }
}
