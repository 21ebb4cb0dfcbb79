ghost use Rattle.std.specs.Prelude.{◌≡◌, IfOk, IsErrOf, OnOk, IsTrue};
ghost use Rattle.post_changes.specs.board_changes.Changed.{made as made_of};
ghost use Rattle.board_layout.specs.Layout.{AreEmpty};
ghost use Rattle.board_layout.specs.Valid.{IsBoard};
ghost use Rattle.door_outside.specs.Disk.{AllNow, Between};
ghost use Rattle.intent_journal.specs.Hosts.{IsCalm, IsSettled};
ghost use Rattle.mail_board.specs.Held.{BeforeOrNext, Rests, sure};
ghost use Rattle.mail_board.specs.Causes.{HasFault};

use crate::board::Board;
use board_ledger::Setup;
use door_outside::Host;
use intent_journal::{JournalError, commit};
use post_changes::made;
use std::alloc::Global;

impl Board {
    /// Makes the board of a setup, created at a moment in Unix seconds: no users, no slots, and all change counters 0.
    /// That board is valid. The host's data files are empty, as after a load that answered `NotMade`. It says nothing.
    ///
    /// `OutOfMemory` comes before the first write. `DiskFault` comes only where the host's count of disk faults
    /// rose, and leaves empty files or those of the board, which the next load finds.
    pub fn make<H: Host>(
        alloc: Global,
        host: &mut H,
        setup: Setup,
        created: u32,
    ) -> Result<Board, JournalError>
        requires calm { IsTrue H.tells → IsCalm (H.disk host.old) }
        requires empty { IsTrue H.tells → AreEmpty (H.disk host.old).files }

        ensures valid { IsBoard (made_of setup created) }

        // A crash at any moment leaves empty files, or those of the board.
        ensures moments { IsTrue H.tells → Between (H.disk host.old) (H.disk host.new) (BeforeOrNext AreEmpty (made_of setup created) (H.disk host.old)) }
        ensures now { IsTrue H.tells → AllNow (H.disk host.new) (BeforeOrNext AreEmpty (made_of setup created) (H.disk host.old)) }
        ensures settled { IsTrue H.tells → IsSettled (H.disk host.new) }

        ensures board { IfOk result (λ board. board ≡ sure (made_of setup created)) }
        ensures rests { OnOk result (IsTrue H.tells → Rests (made_of setup created) (H.disk host.new)) }
        ensures unchanged { IsErrOf result JournalError.OutOfMemory → host.new ≡ host.old }
        ensures cause { HasFault JournalError.DiskFault (H.disk_faults host.old) (H.disk_faults host.new) result }
        ensures voice { H.voice_faults host.new ≡ H.voice_faults host.old }
    {
        let new = made(alloc, setup, created)?;
        commit(host, &new.intent)?;
        Ok(Board {
            stored: new.board,
            doubtful: false,
        })
    }
}
