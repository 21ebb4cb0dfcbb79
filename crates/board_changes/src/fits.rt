ghost use Rattle.std.specs.Prelude.{◌≡◌, ◌≤◌, ◌↔◌, IsTrue, length};
ghost use Rattle.board_changes.specs.Changed.{enrolled as enrolled_of};
ghost use Rattle.board_changes.specs.Enrolling.{is_free as free, may_enroll as enrollable};
ghost use Rattle.board_layout.specs.Valid.{IsBoard};
ghost use Rattle.board_ledger.specs.Users.{is_taken as taken};

use crate::size::size_with_user;
use board_layout::{BOARD_LIMIT, StoredBoard};
use board_ledger::{Ledger, USER_LIMIT, User, are_members, is_user_name};

/// Whether one of the users has the name, ignoring ASCII case.
fn is_taken(users: &[User], name: &[u8]) -> bool
    ensures { result ≡ taken users.now name.now }
{
    users
        .iter()
        .any(|user| user.name.as_slice().eq_ignore_ascii_case(name))
}

/// Whether there are fewer than 500 users, and none has the name, ignoring ASCII case.
fn is_free(ledger: &Ledger, name: &[u8]) -> bool
    ensures { result ≡ free ledger.now name.now }
{
    let users = ledger.users.as_slice();
    users.len() < USER_LIMIT && !is_taken(users, name)
}

/// Whether the ledger may have a user of this name behind the others, a member of the conferences in these places.
fn may_enroll(ledger: &Ledger, name: &[u8], members: u64) -> bool
    requires { length ledger.now.setup.conferences ≤ 64 }
    ensures { result ≡ enrollable ledger.now name.now members }
{
    let conferences = ledger.setup.fields().conferences.len() as u16;
    is_user_name(name) && are_members(members, conferences) && is_free(ledger, name)
}

/// Whether the board is valid once a user of this name is enrolled, a member of the conferences in these places,
/// bit k for place k. It takes no memory.
pub fn fits_user(board: &StoredBoard, name: &[u8], net: bool, members: u64) -> bool
    ensures { IsTrue result ↔ IsBoard (enrolled_of name.now net members board.now) }
{
    may_enroll(board.ledger(), name, members)
        && size_with_user(board, name, net, members) <= BOARD_LIMIT
}
