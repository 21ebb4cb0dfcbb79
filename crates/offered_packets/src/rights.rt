//! Who may see what.
ghost use Rattle.std.specs.Prelude.{◌≡◌, ◌<◌};
ghost use Rattle.offered_packets.specs.Sees.{is_sysop as is_sysop_of, names_user as is_named_in, may_see as is_seen_by, sees as is_seen};

use board_layout::{StoredBoard, message_of};
use board_ledger::{Ledger, User};
use jam_records::Message;

/// Whether the user's name is the sysop's, ignoring ASCII case. It takes no memory.
pub fn is_sysop(ledger: &Ledger, user: &User) -> bool
    ensures { result ≡ is_sysop_of ledger.now user.now }
{
    let name = user.name.as_slice();
    name.eq_ignore_ascii_case(ledger.setup.fields().sysop.as_slice())
}

/// Whether the message is to the user or from the user, ignoring ASCII case.
fn names_user(user: &User, message: &Message) -> bool
    ensures { result ≡ is_named_in user.now message.now }
{
    let name = user.name.as_slice();
    let is_to = message.to.as_slice().eq_ignore_ascii_case(name);
    let is_from = message.from.as_slice().eq_ignore_ascii_case(name);
    is_to || is_from
}

/// Whether a user may see a message of the conference in a place, from 0 to 63. The user must be a member there. A
/// private message must be to the user or from the user, or the user must be the sysop. Names are compared ignoring
/// ASCII case. It takes no memory.
pub fn may_see(ledger: &Ledger, place: u8, user: &User, message: &Message) -> bool
    requires { place < 64 }
    ensures { result ≡ is_seen_by ledger.now place user.now message.now }
{
    let is_open = !message.private || names_user(user, message) || is_sysop(ledger, user);
    user.is_member(u32::from(place)) && is_open
}

/// Whether the user of an id, from 1, sees the message of a number, from 1, in a place, from 0. All three must be
/// there. The message mustn't be deleted, and the user must be a member of its conference. A private message must be to
/// the user or from the user, or the user must be the sysop. Names are compared ignoring ASCII case. It takes no
/// memory.
#[tactic(auto, unfolding(crate::specs::Sees::sees))]
pub fn sees(board: &StoredBoard, user: u32, place: u8, number: u32) -> bool
    ensures { result ≡ is_seen board.now user place number }
{
    let Some(user) = board.user_at(user) else {
        return false;
    };
    let Some(base) = board.base_at(place) else {
        return false;
    };
    match message_of(base, number) {
        Some(message) => !message.deleted && may_see(board.ledger(), place, user, message),
        None => false,
    }
}
