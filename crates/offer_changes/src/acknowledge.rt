ghost use Rattle.std.specs.Prelude.{◌≡◌, ◌≤◌, Some, length, slice_index, IfOk, IfSome, OnOk};
ghost use Rattle.board_changes.specs.Change.{Becomes, ChangesBase};
ghost use Rattle.board_changes.specs.Outlined.{ChangesEach, GatheredEach, LeadsEach};
ghost use Rattle.board_layout.specs.Renewed.{contents_of, renewed};
ghost use Rattle.board_layout.specs.Lookups.{user_of as user_in};
ghost use Rattle.offer_changes.specs.Changed.{acknowledged as acknowledged_of, offer_in, other_offers as other_offers_of, read_offer as read_offer_of, read_up_to as read_of, without_offer as without_offer_of, HasUser};
ghost use Rattle.board_changes.specs.Steps.{base_after, patches_or_none};

use crate::user::{open_offer, user_intent, with_user};
use board_changes::{BoardChange, gather};
use board_layout::{Base, BaseChange, StoredBoard};
use board_ledger::{Highs, Offers, OpenOffer, User};
use byte_lists::{Duplicate, List};
use intent_journal::Intent;
use std::alloc::{AllocError, Global};

/// The open offers but that of a number.
fn other_offers(alloc: Global, offers: &[OpenOffer], packet: u32) -> Result<Offers, AllocError>
    ensures { IfOk result (λ next. next ≡ other_offers_of packet offers.now) }
{
    let mut next = List::new(alloc);
    for offer in offers {
        if offer.number != packet {
            next.add(offer.duplicate(alloc)?)?;
        }
    }
    Ok(next)
}

/// The user to whom the packet of a number isn't offered any more.
fn without_offer(alloc: Global, user: &User, packet: u32) -> Result<User, AllocError>
    ensures { IfOk result (λ next. next ≡ without_offer_of packet user.now) }
{
    Ok(User {
        name: user.name.copy(alloc)?,
        net: user.net,
        members: user.members,
        last: user.last,
        offers: other_offers(alloc, user.offers.as_slice(), packet)?,
    })
}

/// The high of a place, or 0 where there is none.
fn high_of(highs: &Highs, place: usize) -> u32
    ensures { result ≡ slice_index highs.now place }
{
    match highs.get(place) {
        Some(high) => *high,
        None => 0,
    }
}

/// The change of a base by which the user of an id and a name acknowledges it up to a high at a moment. It is None
/// where the user has no last-read pointer there, or the high isn't above it.
fn read_up_to(
    alloc: Global,
    base: &Base,
    id: u32,
    name: &[u8],
    high: u32,
    now: u32,
) -> Result<Option<BaseChange>, AllocError>
    requires { high ≤ length base.now.conference.slots }
    ensures base { IfOk result (λ change. base_after base.now change ≡ read_of id name.now now high base.now) }
    ensures changes { IfOk result (λ change. IfSome change (ChangesBase base.now)) }
    ensures each { IfOk result (λ change. ChangesEach base.now (read_of id name.now now high) (patches_or_none change)) }
{
    let Some(pointer) = base.pointer(id) else {
        return Ok(None);
    };
    if high <= pointer {
        return Ok(None);
    }
    Ok(Some(base.acknowledged(alloc, id, name, high, now)?))
}

/// The bases that the user of an id acknowledges up to the highs of an open offer at a moment. The patches of their
/// files are added to the intent.
fn bases_read(
    alloc: Global,
    board: &StoredBoard,
    id: u32,
    user: &User,
    offer: &OpenOffer,
    now: u32,
    intent: &mut Intent,
) -> Result<List<Option<Base>>, AllocError>
    requires user { user_in id board.now ≡ Some user.now }
    requires offer { offer_in offer.now.number user.now.offers ≡ Some offer.now }
    requires gathered { GatheredEach board.now (read_offer_of id now user.now offer.now) 0 intent.old }
    ensures bases { IfOk result (λ bases. renewed (contents_of board.now) bases ≡ contents_of (read_offer_of id now user.now offer.now board.now)) }
    ensures gathers { OnOk result (GatheredEach board.now (read_offer_of id now user.now offer.now) (length board.now.conferences) intent.new) }
{
    let mut bases = List::new(alloc);
    for (place, base) in board.bases().iter().enumerate() {
        let high = high_of(&offer.highs, place);
        let change = read_up_to(alloc, base, id, user.name.as_slice(), high, now)?;
        bases.add(gather(change, intent)?)?;
    }
    Ok(bases)
}

/// The change of a board by which the user of an id acknowledges an open offer of his at a moment.
fn offer_read(
    alloc: Global,
    board: &StoredBoard,
    id: u32,
    user: &User,
    offer: &OpenOffer,
    now: u32,
) -> Result<BoardChange, AllocError>
    requires user { user_in id board.now ≡ Some user.now }
    requires offer { offer_in offer.now.number user.now.offers ≡ Some offer.now }
    ensures becomes { IfOk result (λ change. Becomes board.now (read_offer_of id now user.now offer.now board.now) change) }
    ensures each { IfOk result (λ change. LeadsEach board.now (read_offer_of id now user.now offer.now) change.intent) }
{
    let old = board.ledger();
    let next = without_offer(alloc, user, offer.number)?;
    let mut intent = user_intent(alloc, old, id, &next)?;
    let bases = bases_read(alloc, board, id, user, offer, now, &mut intent)?;
    let ledger = with_user(alloc, old, id, next)?;
    Ok(BoardChange {
        ledger: Some(ledger),
        bases,
        intent,
    })
}

/// The change of a board by which the user of an id, from 1, acknowledges the packet of a number at a moment in Unix
/// seconds. The user is there. Where the packet isn't offered to him, the board stays as it is. Where it is, that offer
/// goes, and the others stay. The intent serves each board with the outline of this one.
///
/// Each conference changes whose high in that offer is above his last-read pointer. A message there is marked read
/// where all of these hold:
///
/// - It is to him, ignoring ASCII case.
/// - It isn't deleted and isn't read.
/// - Its number is above the pointer, and at most the high.
///
/// Then the pointer is the high.
///
/// The error comes where there is no memory.
pub fn acknowledged(
    alloc: Global,
    board: &StoredBoard,
    user: u32,
    packet: u32,
    now: u32,
) -> Result<BoardChange, AllocError>
    requires { HasUser user board.now }
    ensures becomes { IfOk result (λ change. Becomes board.now (acknowledged_of user packet now board.now) change) }
    ensures each { IfOk result (λ change. LeadsEach board.now (acknowledged_of user packet now) change.intent) }
{
    let reader = board.user_of(user);
    match open_offer(reader, packet) {
        Some(offer) => offer_read(alloc, board, user, reader, offer, now),
        None => Ok(BoardChange {
            ledger: None,
            bases: List::new(alloc),
            intent: Intent::new(alloc),
        }),
    }
}
