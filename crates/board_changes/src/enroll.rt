ghost use Rattle.std.specs.Prelude.{◌≡◌, ◌<◌, ◌+◌, Some, None, length, slice_get, unwrap_or, IfOk, OnOk};
ghost use Rattle.board_changes.specs.Change.{Becomes};
ghost use Rattle.board_changes.specs.Changed.{enrolled as enrolled_of, new_user as new_user_of, with_user as with_user_of, with_member};
ghost use Rattle.board_changes.specs.Outlined.{GatheredEach, LeadsEach};
ghost use Rattle.board_layout.specs.Renewed.{contents_of, renewed};
ghost use Rattle.board_layout.specs.Valid.{IsBoard};
ghost use Rattle.board_ledger.specs.EnrollPuts.{enroll_puts};
ghost use Rattle.board_ledger.specs.Valid.{IsLedger};

use crate::change::BoardChange;
use crate::copy::copy_of;
use crate::gathering::{add_all, intent_with};
use board_layout::{Base, StoredBoard};
use board_ledger::{Ledger, Offers, User, enroll_patches};
use intent_journal::Intent;
use jam_records::{Bytes, Duplicate, List};
use std::alloc::{AllocError, Global};

/// A user whom no packet was ever offered.
fn new_user(alloc: Global, name: &[u8], net: bool, members: u64) -> Result<User, AllocError>
    ensures { IfOk result (λ user. user ≡ new_user_of name.now net members) }
{
    Ok(User {
        name: Bytes::from_slice(alloc, name)?,
        net,
        members,
        last: 0,
        offers: Offers::new(alloc),
    })
}

/// The ledger with a user behind the others.
fn with_user(alloc: Global, ledger: &Ledger, user: User) -> Result<Ledger, AllocError>
    ensures { IfOk result (λ next. next ≡ with_user_of user ledger.now) }
{
    let mut next = copy_of(alloc, ledger)?;
    next.users.add(user)?;
    Ok(next)
}

/// The base of a place with the user as a further reader, whose files the intent makes too, or None where the
/// user is no member of its conference.
fn joined_base(
    alloc: Global,
    board: &StoredBoard,
    user: &User,
    place: u8,
    base: &Base,
    intent: &mut Intent,
) -> Result<Option<Base>, AllocError>
    requires board { IsBoard board.now }
    requires next { IsBoard (with_member user.now board.now) }
    requires base { slice_get (contents_of board.now) place ≡ Some base.now }
    requires gathered { GatheredEach board.now (with_member user.now) place intent.old }
    ensures base { IfOk result (λ new. slice_get (contents_of (with_member user.now board.now)) place ≡ Some (unwrap_or new base.now)) }
    ensures gathers { OnOk result (GatheredEach board.now (with_member user.now) (place + 1) intent.new) }
{
    if !user.is_member(u32::from(place)) {
        return Ok(None);
    }
    let id = board.ledger().users.len() as u32 + 1;
    let change = base.joined(alloc, id, user.name.as_slice())?;
    add_all(intent, change.patches)?;
    Ok(Some(change.base))
}

/// The bases of the places whose member the user is, with the user as a further reader, whose files the intent
/// makes too.
fn joined_bases(
    alloc: Global,
    board: &StoredBoard,
    user: &User,
    intent: &mut Intent,
) -> Result<List<Option<Base>>, AllocError>
    requires next { IsBoard (with_member user.now board.now) }
    requires gathered { GatheredEach board.now (with_member user.now) 0 intent.old }
    ensures bases { IfOk result (λ bases. renewed (contents_of board.now) bases ≡ contents_of (with_member user.now board.now)) }
    ensures gathers { OnOk result (GatheredEach board.now (with_member user.now) (length board.now.conferences) intent.new) }
{
    let mut bases = List::new(alloc);
    for (place, base) in board.bases().iter().enumerate() {
        bases.add(joined_base(alloc, board, user, place as u8, base, intent)?)?;
    }
    Ok(bases)
}

/// The intent that puts the record of a user into the ledger's file, behind those of the others, and changes no other
/// file. Both ledgers are valid.
fn enroll_intent(alloc: Global, ledger: &Ledger, user: &User) -> Result<Intent, AllocError>
    requires ledger { IsLedger ledger.now }
    requires longer { IsLedger (with_user_of user.now ledger.now) }
    ensures { IfOk result (λ intent. intent ≡ enroll_puts ledger.now user.now) }
{
    intent_with(alloc, enroll_patches(alloc, ledger, user)?)
}

/// The change of a board by this user, behind the others.
fn enrolled_as(alloc: Global, board: &StoredBoard, user: &User) -> Result<BoardChange, AllocError>
    requires { IsBoard (with_member user.now board.now) }
    ensures becomes { IfOk result (λ change. Becomes board.now (with_member user.now board.now) change) }
    ensures each { IfOk result (λ change. LeadsEach board.now (with_member user.now) change.intent) }
{
    let ledger = board.ledger();
    let mut intent = enroll_intent(alloc, ledger, user)?;
    let next = with_user(alloc, ledger, user.duplicate(alloc)?)?;
    let bases = joined_bases(alloc, board, user, &mut intent)?;
    Ok(BoardChange {
        ledger: Some(next),
        bases,
        intent,
    })
}

/// The change of a board by a user who is new on it: behind the others, with pointers 0 in the conferences in
/// these places, bit k for place k. The board that it makes is valid. The intent serves each board with the outline
/// of this one.
///
/// The error comes where there is no memory.
pub fn enrolled(
    alloc: Global,
    board: &StoredBoard,
    name: &[u8],
    net: bool,
    members: u64,
) -> Result<BoardChange, AllocError>
    requires { IsBoard (enrolled_of name.now net members board.now) }
    ensures becomes { IfOk result (λ change. Becomes board.now (enrolled_of name.now net members board.now) change) }
    ensures each { IfOk result (λ change. LeadsEach board.now (enrolled_of name.now net members) change.intent) }
{
    let user = new_user(alloc, name, net, members)?;
    enrolled_as(alloc, board, &user)
}
