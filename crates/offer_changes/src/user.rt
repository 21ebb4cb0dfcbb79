// One of the users of a board.
ghost use Rattle.std.specs.Prelude.{◌≡◌, ◌≤◌, ◌<◌, ◌-◌, length, IfOk};
ghost use Rattle.std.specs.Option.{option_copied};
ghost use Rattle.board_ledger.specs.UserPuts.{user_puts, IsAsLong};
ghost use Rattle.board_ledger.specs.Valid.{IsLedger};
ghost use Rattle.offer_changes.specs.Changed.{offer_in, with_user_replaced as with_user_of};

use board_changes::intent_with;
use board_layout::StoredBoard;
use board_ledger::{Ledger, OpenOffer, User, user_patches};
use byte_lists::List;
use intent_journal::Intent;
use std::alloc::{AllocError, Global};

/// The open offer of a number, or None where the user has none.
pub(crate) fn open_offer(user: &User, packet: u32) -> Option<&OpenOffer>
    ensures { option_copied result ≡ offer_in packet user.now.offers }
{
    user.offers
        .as_slice()
        .iter()
        .find(|offer| offer.number == packet)
}

/// The ledger with another user in place of the one of an id.
pub(crate) fn with_user(
    alloc: Global,
    ledger: &Ledger,
    id: u32,
    user: User,
) -> Result<Ledger, AllocError>
    requires above { 0 < id }
    requires within { id ≤ length ledger.now.users }
    ensures { IfOk result (λ next. next ≡ with_user_of id user ledger.now) }
{
    let mut users = ledger.users.copy(alloc)?.into_vec();
    users[id as usize - 1] = user;
    Ok(Ledger {
        version: ledger.version,
        setup: ledger.setup.copy(alloc)?,
        created: ledger.created,
        users: List::from_vec(users),
        uploads: ledger.uploads.copy(alloc)?,
    })
}

/// The intent that puts the record of a user into the ledger's file, over that of the user of an id, whose name is as
/// long, and changes no other file. Both ledgers are valid.
pub(crate) fn user_intent(
    alloc: Global,
    ledger: &Ledger,
    id: u32,
    user: &User,
) -> Result<Intent, AllocError>
    requires above { 0 < id }
    requires ledger { IsLedger ledger.now }
    requires next { IsLedger (with_user_of id user.now ledger.now) }
    requires room { IsAsLong (id - 1) user.now ledger.now }
    ensures { IfOk result (λ intent. intent ≡ user_puts (id - 1) user.now ledger.now) }
{
    let patches = user_patches(alloc, ledger, id as usize - 1, user)?;
    intent_with(alloc, patches)
}
