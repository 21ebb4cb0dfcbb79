//! The run that the program makes.
ghost use Rattle.std.specs.Prelude.{◌≡◌, ◌≢◌, IsTrue};
ghost use Rattle.cmd_board.specs.Causes.{HaveCauses};
ghost use Rattle.cmd_board.specs.State.{AreSpoiled};
ghost use Rattle.cmd_entries.specs.Words.{IsNoCommand};
ghost use Rattle.door_outside.specs.Shelf.{ShelfFiles};
ghost use Rattle.entry_runs.specs.Promise.{counts};
ghost use Rattle.intent_journal.specs.Hosts.{IsFirm, IsSettled};
ghost use Rattle.intent_journal.specs.Recovered.{recovered};
ghost use Rattle.mail_cli.specs.CommandBound.{RunFilesKeepBound, RunKeepsBound};
ghost use Rattle.mail_cli.specs.Histories.{RunContinues};
ghost use Rattle.mail_cli.specs.Passages.{IsOnePassage, RunJoins, begun};
ghost use Rattle.mail_cli.specs.Promises.{RunPromises};
ghost use Rattle.mail_cli.specs.Run.{RunEnds, RunSurvives, RunCompletes, AreTouching, HaveWrong, IsAnswered, TouchBoard, AnswersUsage, AlwaysOffBoard, ReadOffBoard, FilesStay, NameNoFile, NeverSpoils, ReadTouching, ReadWrong};

use crate::entries::run_entries;
use cmd_entries::{Unread, Words, entries_of};
use door_outside::{Host, Shelf};
use entry_runs::Status;
use std::alloc::Global;

/// Carries out the words over a host and a shelf, and says the reply. The words are one command, or for a batch the
/// commands of its file. That file is read once, before the first of them. `now` is the moment in Unix seconds. The
/// host must be settled, as it is after any run, and after a crash too.
///
/// A refused command doesn't end a batch; a line that is no command does, and so do damage and faults.
pub fn run<H: Host, S: Shelf>(
    alloc: Global,
    words: &Words,
    host: &mut H,
    shelf: &mut S,
    now: u32,
) -> Status
    requires { IsTrue H.tells → IsSettled (H.disk host.old) }

    // The whole run, or the run cut short: what the files recover to, what was said, the shelf and the status.
    ensures ends { IsTrue H.tells → IsTrue S.tells → RunEnds now words.now result (H.disk host.old) (H.disk host.new) (S.files shelf.old) (S.files shelf.new) }

    // A crash at any moment leaves the board after some of the entries, or that board migrated by the next, and a front of
    // these entries' replies said.
    ensures survives { IsTrue H.tells → IsTrue S.tells → RunSurvives now words.now (H.disk host.old) (H.disk host.new) (S.files shelf.old) }
    ensures settled { IsTrue H.tells → IsSettled (H.disk host.new) }

    // A host that is firm at entry is firm at exit, unless the disk failed. However it was at entry, it is firm at exit
    // where the words are a command that touches the board, and that was carried out, refused or answered. So it is
    // where the run ends as damaged. (Of the entries of a batch that were read `ends` says so.)
    ensures firm { IsTrue H.tells → result ≢ Status.DiskFault → IsFirm (H.disk host.old) → IsFirm (H.disk host.new) }
    ensures rests { IsTrue H.tells → IsAnswered result → AreTouching now words.now → IsFirm (H.disk host.new) }
    ensures damaged_rests { IsTrue H.tells → result ≡ Status.Damaged → IsFirm (H.disk host.new) }

    // Behind a history that leads to the board at entry, what it leaves and what a crash leaves of it is that history with
    // some of its entries more.
    ensures continues { IsTrue H.tells → IsTrue S.tells → RunContinues now words.now (H.disk host.old) (H.disk host.new) (S.files shelf.old) }

    // At its exit, and where a crash came, the run is one passage from what the data files recovered to at entry. A
    // passage has the entries that were carried out, from the first on, what was said of their replies, and the shelf.
    ensures passage { IsTrue H.tells → IsTrue S.tells → IsOnePassage (begun now words.now (S.files shelf.old)) (H.disk host.old) (H.disk host.new) result (S.files shelf.new) }

    // Where other runs brought some data files to what the host holds at entry, they and this run brought them to what
    // it holds since, after a crash too. So the next run may begin on that.
    ensures joins { IsTrue H.tells → IsTrue S.tells → RunJoins (begun now words.now (S.files shelf.old)) (H.disk host.old) (H.disk host.new) }

    // It never damages files of no board or of a valid one, whatever it answers, and nor does a crash.
    ensures unspoiled { IsTrue H.tells → IsTrue S.tells → NeverSpoils (H.disk host.old) (H.disk host.new) }

    // Where no count rose, the whole was done, or memory ran out.
    ensures completes { IsTrue H.tells → IsTrue S.tells → RunCompletes now words.now
        (counts (H.disk_faults host.old) (H.voice_faults host.old) (S.faults shelf.old)) (counts (H.disk_faults host.new) (H.voice_faults host.new) (S.faults shelf.new))
        result (H.disk host.old) (H.disk host.new) (S.files shelf.old) (S.files shelf.new) }

    // Words that name no file of the shelf do all this on every shelf, whatever it is taken to hold, and write no more than
    // the bound of `wrote`.
    ensures any_shelf { IsTrue H.tells → NameNoFile words.now → (files : ShelfFiles) → RunPromises now words.now
        (counts (H.disk_faults host.old) (H.voice_faults host.old) (S.faults shelf.old)) (counts (H.disk_faults host.new) (H.voice_faults host.new) (S.faults shelf.new))
        result (H.disk host.old) (H.disk host.new) files files }

    // No count falls. A fault is answered only where its count rose, and any other status leaves the count: so want of
    // memory hides no fault.
    ensures causes { HaveCauses H.disk_faults H.voice_faults S.faults host.old host.new shelf.old shelf.new result }

    // Where no entry touches the board, the data files stay byte for byte. Nothing of them could be left otherwise, and
    // no call of the disk fails. Two clauses say so whatever is read of a batch, and two of the batch as the shelf
    // tells it.
    ensures files_stay { AlwaysOffBoard now words.now → IsTrue H.tells → FilesStay (H.disk host.old) (H.disk host.new) }
    ensures disk_faults_stay { AlwaysOffBoard now words.now → H.disk_faults host.new ≡ H.disk_faults host.old }
    ensures read_files_stay { IsTrue S.tells → ReadOffBoard now words.now (S.files shelf.old) → IsTrue H.tells → FilesStay (H.disk host.old) (H.disk host.new) }
    ensures read_disk_faults_stay { IsTrue S.tells → ReadOffBoard now words.now (S.files shelf.old) → H.disk_faults host.new ≡ H.disk_faults host.old }

    // A command that names no file of the shelf leaves the shelf and its count of faults, and so does no command.
    ensures shelf_stays { NameNoFile words.now → shelf.new ≡ shelf.old }

    // Whatever it answers, an import, a sample or an upload writes no more than a bound, where no change was under way
    // at entry and the ledger was of today's version. The bound is twice the bytes by which it enlarges the data files,
    // and 400 for each message that it posts and once more. On every shelf it keeps to the bound between the boards for
    // which the files at entry and at exit stand, unless the disk failed.
    ensures wrote { IsTrue H.tells → IsTrue S.tells → RunKeepsBound now words.now (H.disk host.old) (H.disk host.new) (S.files shelf.old) }
    ensures wrote_between { IsTrue H.tells → result ≢ Status.DiskFault → RunFilesKeepBound words.now (H.disk host.old) (H.disk host.new) }

    // Words that are no command are answered so, and no others: those of the program, or of a line of a batch.
    ensures usage { result ≡ Status.Usage → HaveWrong words.now }
    ensures read_usage { IsTrue S.tells → result ≡ Status.Usage → ReadWrong words.now (S.files shelf.old) }
    ensures no_command { IsNoCommand words.now → AnswersUsage result }

    // It ends as damaged only where an entry touches the board, and the data files that the files at entry recover to are
    // neither all empty nor a board.
    ensures damaged { IsTrue H.tells → result ≡ Status.Damaged → AreSpoiled (recovered (H.disk host.old).files) }
    ensures touched { result ≡ Status.Damaged → TouchBoard now words.now }
    ensures read_touched { IsTrue S.tells → result ≡ Status.Damaged → ReadTouching now words.now (S.files shelf.old) }
{
    let entries = match entries_of(alloc, words, shelf) {
        Ok(entries) => entries,
        Err(Unread::ShelfFault) => return Status::ShelfFault,
        Err(Unread::OutOfMemory) => return Status::OutOfMemory,
    };
    let mut kept = None;
    run_entries(alloc, entries.as_slice(), host, shelf, &mut kept, now)
}
