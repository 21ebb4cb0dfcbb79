// Slots of a place replaced.
ghost use Rattle.std.specs.Prelude.{◌≡◌, ◌↔◌, true, Err, OnOk, IsErrOf, IsTrue, IsFalse};
ghost use Rattle.board_layout.specs.Board as Boards;
ghost use Rattle.board_layout.specs.Layout.{IsLayout};
ghost use Rattle.door_outside.specs.Disk.{AllNow, Between};
ghost use Rattle.intent_journal.specs.Hosts.{IsSettled};
ghost use Rattle.mail_board.specs.Causes.{HasFault};
ghost use Rattle.mail_board.specs.Held.{BeforeOrNext, Follows, Holds, Rests, RestsOn};
ghost use Rattle.post_changes.specs.slot_changes.Packed.{replaced as replaced_of, FitsSlots};

use crate::board::Board;
use crate::change::ChangeError;
use door_outside::Host;
use intent_journal::commit;
use jam_records::Slots;
use post_changes::{fits_slots, replaced};
use std::alloc::Global;

impl Board {
    /// Whether the conference in a place may get these slots. It must be there and have as many. Each message that they
    /// hold must be one that it may hold, with a msgid. With them the data files must have at most 34,603,008 bytes. It
    /// takes no memory. For callers of the library; the program doesn't call it.
    pub fn fits_slots(&self, place: u8, slots: &Slots) -> bool
        ensures { IsTrue result ↔ FitsSlots place slots.now self.now.board }
    {
        fits_slots(&self.stored, place, slots)
    }

    /// Gives the conference in a place these slots, which fit, whole or not at all. They bring their bodies, whatever
    /// bodies stand there. The conference's change counter rises by one, and stays at 4,294,967,295. Where the board
    /// isn't doubtful, the host rests, and its files are those of a board with this outline. The call says nothing.
    ///
    /// `Doubt` comes where the board is doubtful, and `OutOfMemory` before the first write: both leave all as it
    /// was. `DiskFault` comes only where the host's count of disk faults rose. After it the board is doubtful.
    pub fn replace<H: Host>(
        &mut self,
        alloc: Global,
        host: &mut H,
        place: u8,
        slots: &Slots,
    ) -> Result<(), ChangeError>
        requires fits { FitsSlots place slots.now self.old.board }
        requires rests { IsTrue H.tells → IsFalse self.old.doubtful → RestsOn self.old.board (H.disk host.old) }

        // Whichever board the host holds, a crash at any moment leaves that board or the one with these slots.
        ensures moments { IsTrue H.tells → IsFalse self.old.doubtful → (b : Boards.Board) → Holds b (H.disk host.old) → Between (H.disk host.old) (H.disk host.new) (BeforeOrNext (IsLayout b) (replaced_of place slots.now b) (H.disk host.old)) }
        ensures now { IsTrue H.tells → IsFalse self.old.doubtful → (b : Boards.Board) → Holds b (H.disk host.old) → AllNow (H.disk host.new) (BeforeOrNext (IsLayout b) (replaced_of place slots.now b) (H.disk host.old)) }
        ensures settled { IsTrue H.tells → IsFalse self.old.doubtful → IsSettled (H.disk host.new) }

        ensures board { OnOk result (Follows (replaced_of place slots.now self.old.board) self.new) }
        ensures next { OnOk result (IsTrue H.tells → (b : Boards.Board) → Holds b (H.disk host.old) → Rests (replaced_of place slots.now b) (H.disk host.new)) }
        ensures rests { OnOk result (IsTrue H.tells → RestsOn self.new.board (H.disk host.new)) }
        ensures doubt { (result ≡ Err ChangeError.Doubt) ↔ IsTrue self.old.doubtful }
        ensures fault { IsErrOf result ChangeError.DiskFault → self.new ≡ record { board = self.old.board; doubtful = true } }
        ensures unchanged { IsErrOf result ChangeError.Doubt → (self.new ≡ self.old) × (host.new ≡ host.old) }
        ensures starved { IsErrOf result ChangeError.OutOfMemory → (self.new ≡ self.old) × (host.new ≡ host.old) }

        ensures cause { HasFault ChangeError.DiskFault (H.disk_faults host.old) (H.disk_faults host.new) result }
        ensures voice { H.voice_faults host.new ≡ H.voice_faults host.old }
    {
        if self.doubtful {
            return Err(ChangeError::Doubt);
        }
        let next = replaced(alloc, &self.stored, place, slots)?;
        if let Err(fault) = commit(host, &next.intent) {
            self.doubtful = true;
            return Err(fault.into());
        }
        self.stored.renew(next.ledger, next.bases);
        Ok(())
    }
}
