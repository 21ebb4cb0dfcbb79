ghost use Rattle.std.specs.Prelude.{IfOk};
ghost use Rattle.board_changes.specs.Change.{Becomes};
ghost use Rattle.board_changes.specs.Outlined.{LeadsEach};
ghost use Rattle.board_layout.specs.Outlines.{board_outline};
ghost use Rattle.board_layout.specs.Valid.{IsBoard};
ghost use Rattle.slot_changes.specs.Packed.{replaced as replaced_of, FitsSlots};

use board_changes::{BoardChange, with_base};
use board_layout::StoredBoard;
use jam_records::Slots;
use std::alloc::{AllocError, Global};

/// The change of a board by which the conference in a place has these slots, as many as it had, and its change counter
/// rises by one, or stays at 4,294,967,295. The place is there, and the board that it makes is valid. The intent serves
/// each board with the outline of this one: no body of it is looked at, since the slots have all that stay.
///
/// The error comes where there is no memory.
pub fn replaced(
    alloc: Global,
    board: &StoredBoard,
    place: u8,
    slots: &Slots,
) -> Result<BoardChange, AllocError>
    requires fits { FitsSlots place slots.now board.now }
    ensures becomes { IfOk result (λ change. Becomes board.now (board_outline (replaced_of place slots.now board.now)) change) }
    ensures board { IsBoard board.now }
    ensures each { IfOk result (λ change. LeadsEach board.now (replaced_of place slots.now) change.intent) }
{
    let change = board.base_of(place).replaced(alloc, slots)?;
    with_base(alloc, board, place, change)
}
