// What a board has of conferences.
ghost use Rattle.std.specs.Prelude.{◌≡◌, ◌≤◌, length};

use board_layout::StoredBoard;

/// How many conferences there are, at most 64.
pub(crate) fn place_count(board: &StoredBoard) -> u8
    ensures count { result ≡ length board.now.conferences }
    ensures few { result ≤ 64 }
{
    board.bases().len() as u8
}
