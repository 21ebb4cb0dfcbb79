// The user of a name.
ghost use Rattle.std.specs.Prelude.{◌≡◌, Some, IfSome, IfNone, None};
ghost use Rattle.board_layout.specs.Lookups.{user_of};
ghost use Rattle.board_layout.specs.Valid.{IsBoard};
ghost use Rattle.mail_board.specs.Readers.{user_id};

use board_ledger::User;
use mail_board::Board;

/// A user of a board, and his id, from 1.
#[derive(Clone, Copy)]
pub(crate) struct Reader<'a> {
    pub id: u32,
    pub user: &'a User,
}

/// The user of a name, ignoring ASCII case, or None where no user has it.
pub(crate) fn reader_of<'a>(board: &'a Board, name: &[u8]) -> Option<Reader<'a>>
    ensures id { IfSome result (λ reader. user_id name.now board.now.board ≡ Some reader.id) }
    ensures user { IfSome result (λ reader. user_of reader.id board.now.board ≡ Some reader.user.now) }
    ensures board { IsBoard board.now.board }
    ensures none { IfNone result (user_id name.now board.now.board ≡ None) }
{
    let _stored = board.stored();
    let id = board.user_id(name)?;
    match board.user(id) {
        Some(user) => Some(Reader { id, user }),
        None => unreachable!(),
    }
}
