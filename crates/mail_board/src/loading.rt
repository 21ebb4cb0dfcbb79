ghost use Rattle.std.specs.Prelude.{◌≡◌, ◌+◌, ◌≤◌, IfOk, IsErrOf, IsTrue};
ghost use Rattle.board_layout.specs.Damage.{board_in};
ghost use Rattle.board_layout.specs.Rules.{AreFoundOf, ReadGives, GivesSo, HasReadCause};
ghost use Rattle.door_outside.specs.Disk.{AllNow, Between, as_read};
ghost use Rattle.intent_journal.specs.Hosts.{IsCalm, IsFirm, IsSettled};
ghost use Rattle.intent_journal.specs.Journal.{intent_of};
ghost use Rattle.intent_journal.specs.Patches.{byte_count, data_files};
ghost use Rattle.intent_journal.specs.Recovered.{recovered, Back};
ghost use Rattle.mail_board.specs.Loading.{loaded_outline, outline_in, recovery_error, AreOld, AreOpened, IsSureLoad, IsTold, IsValid, Opens, StandsIn};

use crate::board::Board;
use crate::migrating::migrate;
use board_layout::{FoundBoard, ReadError, read_board};
use door_outside::Host;
use intent_journal::{JournalError, recover};
use std::alloc::Global;

/// What the data files of a host stand for.
#[derive(Drop)]
pub enum Loaded {
    /// All are empty.
    NotMade,
    /// They are the layout of this board.
    Ready(Board),
}

/// The error of a load that a recovery ended with.
fn of_recovery(error: JournalError) -> ReadError
    ensures { result ≡ recovery_error error }
{
    match error {
        JournalError::DiskFault => ReadError::DiskFault,
        JournalError::OutOfMemory => ReadError::OutOfMemory,
    }
}

/// Recovers, carrying out what a crash left, and then reads the outline of the board of the files as they stand. It migrates
/// nothing.
fn recover_board<H: Host>(alloc: Global, host: &mut H) -> Result<Option<FoundBoard>, ReadError>
    requires { IsTrue H.tells → IsSettled (H.disk host.old) }
    ensures moments { IsTrue H.tells → Between (H.disk host.old) (H.disk host.new) (Back (H.disk host.old)) }
    ensures now { IsTrue H.tells → IsFirm (H.disk host.old) → AllNow (H.disk host.new) (Back (H.disk host.old)) }
    ensures same { IsTrue H.tells → Back (H.disk host.old) (as_read (H.disk host.new)) }
    ensures settled { IsTrue H.tells → IsSettled (H.disk host.new) }
    ensures firm { IsErrOf result ReadError.OutOfMemory → IsTrue H.tells → IsFirm (H.disk host.new) }
    ensures calm { IsTold result → IsTrue H.tells → IsCalm (H.disk host.new) }
    ensures done { IsTold result → IsTrue H.tells → data_files (H.disk host.new).files ≡ recovered (H.disk host.old).files }
    ensures gives { IsTrue H.tells → GivesSo (AreFoundOf (H.disk host.new).files) result (board_in (recovered (H.disk host.old).files)) }
    ensures wrote { IsTrue H.tells → (H.disk host.new).wrote ≤ (H.disk host.old).wrote + byte_count (intent_of (H.disk host.old).files) + 1 }
    ensures cause { HasReadCause (H.disk_faults host.old) (H.disk_faults host.new) result }
    ensures voice { H.voice_faults host.new ≡ H.voice_faults host.old }
{
    recover(alloc, host).map_err(of_recovery)?;
    read_board(alloc, host)
}

impl Board {
    /// What the data files of a host stand for. It recovers first, and so carries out what a crash left. Then it reads
    /// each file once. Where it finds a board in files of version 1, it writes the board's ledger in version 2. It says
    /// nothing.
    ///
    /// `Damaged` comes where the recovered data files are neither all empty nor the layout of a board in either
    /// version. It has the first rule that they break. `DiskFault` comes only where the host's count of disk faults
    /// rose. `OutOfMemory` comes before the first write of a migration, and hides no fault. Where damage and want of
    /// memory meet, either may be answered.
    #[tactic(auto, using(crate::proofs::LoadLaws::stops_outlined))]
    pub fn load<H: Host>(alloc: Global, host: &mut H) -> Result<Loaded, ReadError>
        requires { IsTrue H.tells → IsSettled (H.disk host.old) }

        // A crash at any moment leaves what recovers to the same files, or to these migrated. From a host that is only
        // settled, it may also leave files as a crash at entry could have left them. From a firm host it never does.
        ensures moments { IsTrue H.tells → Between (H.disk host.old) (H.disk host.new) (Opens (H.disk host.old)) }
        ensures now { IsTrue H.tells → IsFirm (H.disk host.old) → AllNow (H.disk host.new) (Opens (H.disk host.old)) }
        ensures same { IsTrue H.tells → Opens (H.disk host.old) (as_read (H.disk host.new)) }
        ensures settled { IsTrue H.tells → IsSettled (H.disk host.new) }
        ensures firm { IsErrOf result ReadError.OutOfMemory → IsTrue H.tells → IsFirm (H.disk host.new) }
        ensures calm { IsTold result → IsTrue H.tells → IsCalm (H.disk host.new) }
        ensures done { IsTold result → IsTrue H.tells → AreOpened (recovered (H.disk host.old).files) (data_files (H.disk host.new).files) }

        // Where memory ran out, nothing was migrated: the files recover to the same bytes.
        ensures starved { IsErrOf result ReadError.OutOfMemory → IsTrue H.tells → recovered (H.disk host.new).files ≡ recovered (H.disk host.old).files }

        // The outline of the board whose layout the recovered files are, or none where all are empty, or their first damage.
        ensures gives { IsTrue H.tells → ReadGives loaded_outline result (outline_in (recovered (H.disk host.old).files)) }
        // What it answers stands in the files that it leaves, which are of version 2: they are the layout of a board with
        // its outline.
        ensures stands { IsTrue H.tells → IfOk result (StandsIn (H.disk host.new).files) }
        ensures sure { IfOk result IsSureLoad }
        ensures valid { IfOk result IsValid }

        // Where nothing is migrated, at most what the patches of the intent put, and the gate.
        ensures wrote { IsTrue H.tells → ¬ AreOld (recovered (H.disk host.old).files) → (H.disk host.new).wrote ≤ (H.disk host.old).wrote + byte_count (intent_of (H.disk host.old).files) + 1 }

        ensures cause { HasReadCause (H.disk_faults host.old) (H.disk_faults host.new) result }
        ensures voice { H.voice_faults host.new ≡ H.voice_faults host.old }
    {
        match recover_board(alloc, host)? {
            None => Ok(Loaded::NotMade),
            Some(found) => {
                migrate(alloc, host, &found).map_err(of_recovery)?;
                Ok(Loaded::Ready(Board {
                    stored: found.board,
                    doubtful: false,
                }))
            }
        }
    }
}
