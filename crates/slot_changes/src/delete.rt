ghost use Rattle.std.specs.Prelude.{◌≡◌, ◌≤◌, length, IfOk, IsTrue};
ghost use Rattle.board_changes.specs.Change.{Becomes, ChangesBase};
ghost use Rattle.board_changes.specs.Outlined.{LeadsEach};
ghost use Rattle.board_layout.specs.Valid.{IsBoard};
ghost use Rattle.board_ledger.specs.intent_journal.Patches.{byte_count};
ghost use Rattle.board_layout.specs.jam_base.Contents.{with_deleted};
ghost use Rattle.board_layout.specs.jam_base.Outlined.{TurnsEach};
ghost use Rattle.board_layout.specs.jam_base.Slots.{has_live};
ghost use Rattle.slot_changes.specs.Changed.{deleted as deleted_of, HasMessage};

use board_changes::{BoardChange, with_base};
use board_layout::{Base, BaseChange, KillRefusal, StoredBoard};
use std::alloc::{AllocError, Global};

/// The base with the message of a number deleted, which is there and isn't deleted.
fn killed(alloc: Global, base: &Base, number: u32) -> Result<BaseChange, AllocError>
    requires { IsTrue (has_live number base.now.conference.slots) }
    ensures base { IfOk result (λ change. change.base ≡ with_deleted number base.now) }
    ensures changes { IfOk result (λ change. ChangesBase base.now change) }
    ensures each { IfOk result (λ change. TurnsEach base.now (with_deleted number) change.patches) }
    ensures costs { IfOk result (λ change. (length change.patches ≤ 2) × (byte_count change.patches ≤ 24)) }
{
    match base.killed(alloc, number) {
        Ok(change) => Ok(change),
        Err(KillRefusal::NoMessage) => unreachable!(),
        Err(KillRefusal::OutOfMemory) => Err(AllocError),
    }
}

/// The change of a board by which the message of a number in a place is deleted. The message is there and isn't
/// deleted, and the board that it makes is valid. The intent serves each board with the outline of this one.
///
/// The error comes where there is no memory.
pub fn deleted(
    alloc: Global,
    board: &StoredBoard,
    place: u8,
    number: u32,
) -> Result<BoardChange, AllocError>
    requires message { HasMessage place number board.now }
    requires next { IsBoard (deleted_of place number board.now) }
    ensures becomes { IfOk result (λ change. Becomes board.now (deleted_of place number board.now) change) }
    ensures each { IfOk result (λ change. LeadsEach board.now (deleted_of place number) change.intent) }
    ensures costs { IfOk result (λ change. (length change.intent ≤ 2) × (byte_count change.intent ≤ 24)) }
{
    let change = killed(alloc, board.base_of(place), number)?;
    with_base(alloc, board, place, change)
}
