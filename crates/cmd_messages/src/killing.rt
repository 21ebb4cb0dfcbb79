//! The command `kill`.
ghost use Rattle.std.specs.Prelude.{◌≡◌, false, IfOk, IsTrue, MatchResult};
ghost use Rattle.cmd_board.specs.Causes.{HostHasCauses};
ghost use Rattle.cmd_board.specs.Halts.{told};
ghost use Rattle.cmd_board.specs.Kept.{AreSure, IsKept};
ghost use Rattle.cmd_board.specs.State.{State, Stores};
ghost use Rattle.cmd_board.specs.declared.halt.BoardHalt.TheVariants.{Refused};
ghost use Rattle.board_layout.specs.Valid.{IsBoard};
ghost use Rattle.door_outside.specs.Shelf.{ShelfFiles};
ghost use Rattle.entry_runs.specs.Door.{World};
ghost use Rattle.entry_runs.specs.Entry.{IsAt, Works};
ghost use Rattle.entry_runs.specs.Promise.{ended};
ghost use Rattle.cmd_board.specs.mail_board.Changes.{Fits};
ghost use Rattle.cmd_board.specs.mail_board.declared.change.Change.TheVariants.{Kill};
ghost use Rattle.cmd_board.specs.shelf_files.declared.refusal.Refusal.TheVariants.{NoMessage};
ghost use Rattle.cmd_messages.specs.Kill.{has_message, killed_line, kills};

use cmd_board::{Board, BoardHalt, Change, Loaded, Refusal, board_in, find, make_change, place_in};
use door_outside::Host;
use std::alloc::Global;

/// The change by which the message of a number in a place is deleted, refused where there is none that isn't deleted.
fn prepared(board: &Board, place: u8, number: u32) -> Result<Change, BoardHalt>
    requires { IsBoard board.now.board }
    ensures change { MatchResult result (λ change. (change ≡ Kill place number) × IsTrue (has_message place number board.now.board)) (λ e. (e ≡ Refused NoMessage) × (has_message place number board.now.board ≡ false)) }
    ensures fits { IfOk result (λ change. Fits change board.now.board) }
{
    let change = Change::Kill { place, number };
    if !board.fits(&change) {
        return Err(BoardHalt::Refused(Refusal::NoMessage));
    }
    Ok(change)
}

/// Deletes the message of a number in the conference of a number.
///
/// It is refused where there is no board, then where no conference has the number, then where the conference has no
/// message of its number that isn't deleted.
pub fn kill<H: Host>(
    alloc: Global,
    host: &mut H,
    kept: &mut Option<Loaded>,
    conference: u32,
    number: u32,
) -> Result<(), BoardHalt>
    requires sure { AreSure kept.old }
    requires kept { IsTrue H.tells → IsKept kept.old (H.disk host.old) }
    ensures works { IsTrue H.tells → (world : World State) (shelf : ShelfFiles) → IsAt Stores world (H.disk host.old) shelf → Works Stores (kills conference number) world (H.disk host.old) (H.disk host.new) shelf (told (λ _. killed_line conference number) result) }
    ensures kept { IsTrue H.tells → IsKept kept.new (H.disk host.new) }
    ensures sure { AreSure kept.new }
    ensures causes { HostHasCauses H.disk_faults H.voice_faults host.old host.new (ended (told (λ _. killed_line conference number) result)) }
{
    find(alloc, host, kept)?;
    let board = board_in(kept)?;
    let place = place_in(board, conference)?;
    let change = prepared(board, place, number)?;
    make_change(alloc, host, kept, &change)?;
    Ok(())
}
