// The board that is kept between two entries.
ghost use Rattle.std.specs.Prelude.{◌≡◌, Some, None, IfOk, IfErr, MatchResult, OnOk};
ghost use Rattle.board_layout.specs.Valid.{IsBoard};
ghost use Rattle.mail_board.specs.declared.loading.Loaded.TheVariants as loaded;
ghost use Rattle.shelf_files.specs.declared.refusal.Refusal.TheVariants as refusal;
ghost use Rattle.cmd_board.specs.Kept.{AreSure, kept_board, unless_doubtful};
ghost use Rattle.cmd_board.specs.declared.halt.BoardHalt.TheVariants.{Refused};

use crate::halt::BoardHalt;
use mail_board::{Board, Loaded};
use shelf_files::Refusal;

/// The board that is kept, refused where there is none.
pub fn board_in(kept: &Option<Loaded>) -> Result<&Board, BoardHalt>
    requires { AreSure kept.now }
    ensures board { MatchResult result (λ board. kept_board kept.now ≡ Some board.now.board) (λ e. (e ≡ Refused refusal.NotMade) × (kept_board kept.now ≡ None)) }
    ensures valid { IfOk result (λ board. IsBoard board.now.board) }
{
    match kept {
        Some(Loaded::Ready(board)) => Ok(board),
        _ => Err(BoardHalt::Refused(Refusal::NotMade)),
    }
}

/// Takes the board that is kept, to change it, refused where there is none.
pub fn take_board(kept: &mut Option<Loaded>) -> Result<Board, BoardHalt>
    ensures board { IfOk result (λ board. kept.old ≡ Some (loaded.Ready board)) }
    ensures taken { OnOk result (kept.new ≡ None) }
    ensures none { IfErr result (λ e. (e ≡ Refused refusal.NotMade) × (kept_board kept.old ≡ None) × (kept.new ≡ kept.old)) }
{
    match kept.take() {
        Some(Loaded::Ready(board)) => Ok(board),
        Some(Loaded::NotMade) => {
            *kept = Some(Loaded::NotMade);
            Err(BoardHalt::Refused(Refusal::NotMade))
        }
        None => Err(BoardHalt::Refused(Refusal::NotMade)),
    }
}

/// Keeps a board that was taken. One in doubt isn't kept, and the next run finds which board it is.
pub fn keep_board(kept: &mut Option<Loaded>, board: Board)
    ensures { kept.new ≡ unless_doubtful board }
{
    *kept = if board.doubtful() {
        None
    } else {
        Some(Loaded::Ready(board))
    };
}
