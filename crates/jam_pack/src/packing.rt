//! A pack: the deleted messages of a conference give their room back.
ghost use Rattle.std.specs.Prelude.{◌≡◌, ◌↔◌, ◌<◌, ◌⊎◌, true, Err, length, IfOk, IsErrOf, IsTrue, IsFalse, OnOk};
ghost use Rattle.board_layout.specs.Board as Boards;
ghost use Rattle.board_layout.specs.Layout.{IsLayout};
ghost use Rattle.door_outside.specs.Disk.{AllNow, Between};
ghost use Rattle.intent_journal.specs.Hosts.{IsSettled};
ghost use Rattle.jam_records.specs.declared.damage.Damage.{Damage};
ghost use Rattle.mail_board.specs.Causes.{HasFault};
ghost use Rattle.mail_board.specs.Held.{AreLeft, BeforeOrNext, Follows, Holds, Rests, RestsOn};
ghost use Rattle.slot_changes.specs.Packed.{packed, packed_count as packed_count_of};
ghost use Rattle.jam_pack.specs.Packing.{PackLeavesAll};

use crate::counting::packed_count;
use crate::error::PackError;
use crate::fetching::slots_of;
use door_outside::Host;
use mail_board::Board;
use std::alloc::Global;

/// Makes each slot of the conference in a place that holds a deleted message Gone, and answers how many did, in one
/// change. All other slots stay, with their numbers and their texts, which are read from the host, and so do pointers and
/// offers. Where none holds one, nothing is read or written. The place is there. Where the board isn't doubtful, the host
/// rests, and its files are those of a board with this outline; and so it is afterwards, unless the board is doubtful
/// then. It says nothing. The memory of the conference's texts is taken twice: as its messages, and as the new .JDT.
///
/// `Doubt` comes where the board is doubtful, before any call of the host. `Damaged` comes where a fetched message can't
/// be in the board's files, and never from a host that tells its files. It and `OutOfMemory` come before the first write.
/// All of these leave the board and the files as they were. `DiskFault` comes only where the host's count of disk faults
/// rose. Where that was before the first write, all is as it was too, and the board isn't doubtful; else the board is
/// doubtful.
pub fn pack<H: Host>(
    alloc: Global,
    board: &mut Board,
    host: &mut H,
    place: u8,
) -> Result<u32, PackError>
    requires place { place < length board.old.board.conferences }
    requires rests { IsTrue H.tells → IsFalse board.old.doubtful → RestsOn board.old.board (H.disk host.old) }

    // Whichever board the host holds, a crash at any moment leaves that board or the packed one.
    ensures moments { IsTrue H.tells → IsFalse board.old.doubtful → (b : Boards.Board) → Holds b (H.disk host.old) → Between (H.disk host.old) (H.disk host.new) (BeforeOrNext (IsLayout b) (packed place b) (H.disk host.old)) }
    ensures now { IsTrue H.tells → IsFalse board.old.doubtful → (b : Boards.Board) → Holds b (H.disk host.old) → AllNow (H.disk host.new) (BeforeOrNext (IsLayout b) (packed place b) (H.disk host.old)) }
    ensures settled { IsTrue H.tells → IsFalse board.old.doubtful → IsSettled (H.disk host.new) }

    // What leaves all as it was.
    ensures doubt { (result ≡ Err PackError.Doubt) ↔ IsTrue board.old.doubtful }
    ensures none { IsFalse board.old.doubtful → packed_count_of place board.old.board ≡ 0 → (board.new ≡ board.old) × (host.new ≡ host.old) }
    ensures asked { IsErrOf result PackError.Doubt → (board.new ≡ board.old) × (host.new ≡ host.old) }
    ensures undamaged { IsTrue H.tells → (damage : Damage) → ¬ (result ≡ Err (PackError.Damaged damage)) }
    ensures unchanged { PackLeavesAll result → AreLeft H.tells board.old board.new (H.disk host.old) (H.disk host.new) }
    ensures fault { IsErrOf result PackError.DiskFault → AreLeft H.tells board.old board.new (H.disk host.old) (H.disk host.new) ⊎ (board.new ≡ record { board = board.old.board; doubtful = true }) }

    // The packed board; and the host is the board's, unless that is doubtful.
    ensures count { IfOk result (λ count. count ≡ packed_count_of place board.old.board) }
    ensures board { OnOk result (Follows (packed place board.old.board) board.new) }
    ensures next { OnOk result (IsTrue H.tells → (b : Boards.Board) → Holds b (H.disk host.old) → Rests (packed place b) (H.disk host.new)) }
    ensures rests { IsTrue H.tells → IsFalse board.old.doubtful → IsFalse board.new.doubtful → RestsOn board.new.board (H.disk host.new) }

    ensures disk_cause { HasFault PackError.DiskFault (H.disk_faults host.old) (H.disk_faults host.new) result }
    ensures voice { H.voice_faults host.new ≡ H.voice_faults host.old }
{
    if board.doubtful() {
        return Err(PackError::Doubt);
    }
    let count = packed_count(board.stored(), place);
    if count == 0 {
        return Ok(0);
    }
    let slots = slots_of(alloc, board, host, place)?;
    board.replace(alloc, host, place, &slots)?;
    Ok(count)
}
