// Whether a packet may be offered, and acknowledged.
ghost use Rattle.std.specs.Prelude.{◌≡◌, ◌↔◌, ◌≤◌, ◌<◌, ◌==◌, ◌||◌, IsTrue, length};
ghost use Rattle.board_layout.specs.Valid.{IsBoard};
ghost use Rattle.open_offers.specs.Offers.{are_of_member as of_member};
ghost use Rattle.board_ledger.specs.Users.{is_member};
ghost use Rattle.offer_changes.specs.Changed.{acknowledged as acknowledged_of, offer_made as offered_of, HasOffer, MayOffer};
ghost use Rattle.offer_changes.specs.Highs.{may_have as may_have_of};

use crate::user::open_offer;
use board_layout::{StoredBoard, highs_fit};
use board_ledger::{Highs, User};

/// Whether the high of a place is 0, or the user is a member of the conference there.
fn is_of_member(user: &User, place: u32, high: u32) -> bool
    requires { place < 64 }
    ensures { result ≡ (high == 0 || is_member user.now place) }
{
    high == 0 || user.is_member(place)
}

/// Whether each high is 0 where the user isn't a member.
fn are_of_member(user: &User, highs: &[u32]) -> bool
    requires { length highs.now ≤ 64 }
    ensures { result ≡ of_member user.now.members 0 highs.now }
{
    for (place, high) in highs.iter().enumerate() {
        if !is_of_member(user, place as u32, *high) {
            return false;
        }
    }
    true
}

/// Whether a user may be offered messages up to these highs: there is one for each conference, none is above the
/// count of slots there, and it is 0 where the user isn't a member.
fn may_have(board: &StoredBoard, user: &User, highs: &[u32]) -> bool
    ensures { result ≡ may_have_of board.now user.now highs.now }
{
    let bases = board.bases();
    if highs.len() != bases.len() {
        return false;
    }
    highs_fit(bases, highs) && are_of_member(user, highs)
}

/// Whether the user of an id, from 1, is there, his last packet is below 4,294,967,295, and the board is valid once
/// one packet more is offered to him, with these highs. It takes no memory.
pub fn fits_offer(board: &StoredBoard, user: u32, highs: &Highs) -> bool
    ensures { IsTrue result ↔ (MayOffer user board.now × IsBoard (offered_of user highs.now board.now)) }
{
    match board.user_at(user) {
        Some(user) => user.last < u32::MAX && may_have(board, user, highs.as_slice()),
        None => false,
    }
}

/// Whether the user of an id, from 1, is there, the packet of a number is offered to him, and the board is valid once he
/// acknowledges it at a moment in Unix seconds. It takes no memory.
pub fn fits_acknowledgement(board: &StoredBoard, user: u32, packet: u32, now: u32) -> bool
    ensures { IsTrue result ↔ (HasOffer user packet board.now × IsBoard (acknowledged_of user packet now board.now)) }
{
    match board.user_at(user) {
        Some(user) => open_offer(user, packet).is_some(),
        None => false,
    }
}
