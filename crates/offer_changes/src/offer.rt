ghost use Rattle.std.specs.Prelude.{◌≡◌, ◌<◌, ◌++◌, ◌∷◌, [], IfOk};
ghost use Rattle.board_changes.specs.Change.{Becomes};
ghost use Rattle.board_changes.specs.Outlined.{LeadsEach};
ghost use Rattle.board_layout.specs.Valid.{IsBoard};
ghost use Rattle.offer_changes.specs.Changed.{latest, offer_made as offered_of, with_offer as with_offer_of, HasUser};

use crate::user::{user_intent, with_user};
use board_changes::BoardChange;
use board_layout::StoredBoard;
use board_ledger::{Highs, Offers, OpenOffer, User};
use byte_lists::{Duplicate, List};
use std::alloc::{AllocError, Global};

/// The latest four of these open offers and of one more behind them.
#[tactic(auto, using(crate::proofs::OpenOffers::latest_is))]
fn latest_with(alloc: Global, offers: &[OpenOffer], offer: OpenOffer) -> Result<Offers, AllocError>
    ensures { IfOk result (λ next. next ≡ latest (offers.now ++ offer ∷ [])) }
{
    let first = offers.len().saturating_sub(3);
    let mut next = List::new(alloc);
    for kept in &offers[first..] {
        next.add(kept.duplicate(alloc)?)?;
    }
    next.add(offer)?;
    Ok(next)
}

/// The user to whom one packet more is offered, with these highs.
fn with_offer(alloc: Global, user: &User, highs: &Highs) -> Result<User, AllocError>
    requires { user.now.last < 0xFFFF_FFFF }
    ensures { IfOk result (λ next. next ≡ with_offer_of highs.now user.now) }
{
    let number = user.last + 1;
    let offer = OpenOffer {
        number,
        highs: highs.copy(alloc)?,
    };
    Ok(User {
        name: user.name.copy(alloc)?,
        net: user.net,
        members: user.members,
        last: number,
        offers: latest_with(alloc, user.offers.as_slice(), offer)?,
    })
}

/// The change of a board by which one packet more is offered to the user of an id, from 1: it is his last one, and
/// these are its highs. Up to four offers are open: where five would be, that of the smallest number goes. The user is
/// there, and the board that it makes is valid. The intent serves each board with the outline of this one.
///
/// The error comes where there is no memory.
pub fn offered(
    alloc: Global,
    board: &StoredBoard,
    user: u32,
    highs: &Highs,
) -> Result<BoardChange, AllocError>
    requires user { HasUser user board.now }
    requires next { IsBoard (offered_of user highs.now board.now) }
    ensures becomes { IfOk result (λ change. Becomes board.now (offered_of user highs.now board.now) change) }
    ensures each { IfOk result (λ change. LeadsEach board.now (offered_of user highs.now) change.intent) }
{
    let old = board.ledger();
    let next = with_offer(alloc, board.user_of(user), highs)?;
    let intent = user_intent(alloc, old, user, &next)?;
    let ledger = with_user(alloc, old, user, next)?;
    Ok(BoardChange {
        ledger: Some(ledger),
        bases: List::new(alloc),
        intent,
    })
}
