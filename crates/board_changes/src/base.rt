ghost use Rattle.std.specs.Prelude.{◌≡◌, ◌++◌, ◌∷◌, [], Some, None, replicate, IfOk, IsSomeAnd};
ghost use Rattle.board_changes.specs.Change.{Becomes, ChangesBase};
ghost use Rattle.board_changes.specs.Changed.{base_at, with_base as with_base_of};
ghost use Rattle.board_changes.specs.Outlined.{KeepsEach, LeadsEach, MadeBy, with_changed};
ghost use Rattle.board_layout.specs.Valid.{IsBoard};
ghost use Rattle.board_layout.specs.jam_base.Contents.{Contents};

use crate::change::BoardChange;
use crate::gathering::intent_with;
use board_layout::{Base, BaseChange, StoredBoard};
use jam_records::List;
use std::alloc::{AllocError, Global};

/// New bases by place, of which the last, in this place, is the only one.
fn only_in(alloc: Global, place: u8, base: Base) -> Result<List<Option<Base>>, AllocError>
    ensures { IfOk result (λ bases. bases ≡ replicate place None ++ Some base ∷ []) }
{
    let mut bases = List::new(alloc);
    for _done in 0..place {
        bases.add(None)?;
    }
    bases.add(Some(base))?;
    Ok(bases)
}

/// The change of a board by which the conference in a place changes, and nothing else: the ledger and its file
/// stay. The board that it makes is valid. Where the patches change each base with the outline of the old one, the
/// intent changes each board with the outline of this one.
///
/// The error comes where there is no memory.
pub fn with_base(
    alloc: Global,
    board: &StoredBoard,
    place: u8,
    change: BaseChange,
) -> Result<BoardChange, AllocError>
    requires change { IsSomeAnd (base_at place board.now) (λ old. ChangesBase old change) }
    requires next { IsBoard (with_base_of place (Some change.base) board.now) }
    ensures becomes { IfOk result (λ next. Becomes board.now (with_base_of place (Some change.base) board.now) next) }
    ensures each { IfOk result (λ next. (f : Contents → Contents) → IsSomeAnd (base_at place board.now) (MadeBy f change) → KeepsEach board.now (with_changed place f) → LeadsEach board.now (with_changed place f) next.intent) }
    ensures patches { IfOk result (λ next. next.intent ≡ change.patches) }
{
    let _ledger = board.ledger();
    let intent = intent_with(alloc, change.patches)?;
    let bases = only_in(alloc, place, change.base)?;
    Ok(BoardChange {
        ledger: None,
        bases,
        intent,
    })
}
