//! A run over a list of entries.
ghost use Rattle.std.specs.Prelude.{◌≡◌, ◌≢◌, ◌≤◌, false, IsTrue, All};
ghost use Rattle.door_outside.specs.Shelf.{ShelfFiles};
ghost use Rattle.entry_runs.specs.Door.{any_touches};
ghost use Rattle.cmd_board.specs.Causes.{HaveCauses};
ghost use Rattle.cmd_board.specs.Kept.{AreSure, IsKept};
ghost use Rattle.cmd_board.specs.State.{AreSpoiled};
ghost use Rattle.intent_journal.specs.Hosts.{IsFirm, IsSettled};
ghost use Rattle.intent_journal.specs.Recovered.{recovered};
ghost use Rattle.cmd_entries.specs.Entries.{EntryCanRun, HasWrong, BeginsWrong};
ghost use Rattle.mail_cli.specs.CommandBound.{OneFilesKeepBound, OneKeepsBound};
ghost use Rattle.mail_cli.specs.Run.{EntriesEnd, EntriesSurvive, AnswersUsage, BeginsTouching, IsAnswered, FilesStay};
ghost use Rattle.mail_cli.specs.Step.{any_uses_shelf, door};

use crate::perform::perform;
use cmd_board::Loaded;
use cmd_entries::Entry;
use door_outside::{Host, Shelf};
use entry_runs::Status;
use std::alloc::Global;

/// Carries out entries in order, and says their replies, with the board as it was kept, up to and with the first that
/// ends the run.
pub fn run_entries<H: Host, S: Shelf>(
    alloc: Global,
    entries: &[Entry],
    host: &mut H,
    shelf: &mut S,
    kept: &mut Option<Loaded>,
    now: u32,
) -> Status
    requires can_run { All EntryCanRun entries.now }
    requires settled { IsTrue H.tells → IsSettled (H.disk host.old) }
    requires sure { AreSure kept.old }
    requires kept { IsTrue H.tells → IsKept kept.old (H.disk host.old) }
    ensures settled { IsTrue H.tells → IsSettled (H.disk host.new) }
    ensures ends { IsTrue H.tells → IsTrue S.tells → EntriesEnd now entries.now result (H.disk host.old) (H.disk host.new) (S.files shelf.old) (S.files shelf.new) }
    ensures survives { IsTrue H.tells → IsTrue S.tells → EntriesSurvive now entries.now (H.disk host.old) (H.disk host.new) (S.files shelf.old) }
    ensures later { IsTrue H.tells → IsTrue S.tells → (H.disk host.old).clock ≤ (H.disk host.new).clock }
    ensures ends_any { any_uses_shelf entries.now ≡ false → IsTrue H.tells → (files : ShelfFiles) → EntriesEnd now entries.now result (H.disk host.old) (H.disk host.new) files files }
    ensures survives_any { any_uses_shelf entries.now ≡ false → IsTrue H.tells → (files : ShelfFiles) → EntriesSurvive now entries.now (H.disk host.old) (H.disk host.new) files }
    ensures later_any { any_uses_shelf entries.now ≡ false → IsTrue H.tells → (H.disk host.old).clock ≤ (H.disk host.new).clock }
    ensures firm { IsTrue H.tells → result ≢ Status.DiskFault → IsFirm (H.disk host.old) → IsFirm (H.disk host.new) }
    ensures rests { IsTrue H.tells → IsAnswered result → BeginsTouching now entries.now → IsFirm (H.disk host.new) }
    ensures damaged_rests { IsTrue H.tells → result ≡ Status.Damaged → IsFirm (H.disk host.new) }
    ensures damaged { IsTrue H.tells → result ≡ Status.Damaged → AreSpoiled (recovered (H.disk host.old).files) }
    ensures touched { result ≡ Status.Damaged → IsTrue (any_touches (door now) entries.now) }
    ensures causes { HaveCauses H.disk_faults H.voice_faults S.faults host.old host.new shelf.old shelf.new result }
    ensures usage { result ≡ Status.Usage → HasWrong entries.now }
    ensures wrong { BeginsWrong entries.now → AnswersUsage result }
    ensures files_stay { any_touches (door now) entries.now ≡ false → IsTrue H.tells → FilesStay (H.disk host.old) (H.disk host.new) }
    ensures disk_faults_stay { any_touches (door now) entries.now ≡ false → H.disk_faults host.new ≡ H.disk_faults host.old }
    ensures shelf_stays { any_uses_shelf entries.now ≡ false → shelf.new ≡ shelf.old }
    ensures wrote { IsTrue H.tells → IsTrue S.tells → OneKeepsBound now entries.now (H.disk host.old) (H.disk host.new) (S.files shelf.old) }
    ensures wrote_any { any_uses_shelf entries.now ≡ false → IsTrue H.tells → (files : ShelfFiles) → OneKeepsBound now entries.now (H.disk host.old) (H.disk host.new) files }
    ensures wrote_between { IsTrue H.tells → result ≢ Status.DiskFault → OneFilesKeepBound entries.now (H.disk host.old) (H.disk host.new) }
{
    let mut status = Status::Done;
    for entry in entries {
        let class = match perform(alloc, host, shelf, kept, entry, now) {
            Ok(class) => class,
            Err(stop) => return stop.status(),
        };
        status = class.after(status);
        if class.is_last() {
            return status;
        }
    }
    status
}
