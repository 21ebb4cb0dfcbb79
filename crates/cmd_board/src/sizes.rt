// How long the files of a board may become.
ghost use Rattle.std.specs.Prelude.{◌≡◌, ◌<◌, ◌^◌, [], ◌∷◌, nat_lt};
ghost use Rattle.board_layout.specs.Layout.{board_size};
ghost use Rattle.board_layout.specs.Valid.{board_limit};
ghost use Rattle.mail_board.specs.Changes.{changed, Exists};
ghost use Rattle.shelf_files.specs.declared.refusal.Refusal.TheVariants.{Size};
ghost use Rattle.cmd_board.specs.Enroll.{first_refusal};

use board_layout::BOARD_LIMIT;
use mail_board::{Board, Change};
use shelf_files::Refusal;

/// Why the files would be too long after a change, where they would be: 34,603,008 bytes is the most. It takes no memory.
pub fn size_refusal(board: &Board, change: &Change) -> Option<Refusal>
    requires exists { Exists change.now board.now.board }
    requires short { board_size (changed change.now board.now.board) < 2 ^ 64 }
    ensures { result ≡ first_refusal ((nat_lt board_limit (board_size (changed change.now board.now.board)), Size (board_size (changed change.now board.now.board))) ∷ []) }
{
    let size = board.size_after(change);
    if size > BOARD_LIMIT {
        return Some(Refusal::Size(size));
    }
    None
}
