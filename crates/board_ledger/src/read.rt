ghost use Rattle.std.specs.Prelude.{◌≡◌, ◌≤◌, length, Ok};
ghost use Rattle.board_ledger.specs.Limits.{upload_limit, user_limit};
ghost use Rattle.board_ledger.specs.Rules.{LedgerGives};
ghost use Rattle.board_ledger.specs.Ledger.{with_conferences as setup_with, ledger_with, ledger_of as ledger_in};
ghost use Rattle.board_ledger.specs.Opening.{opening_at as opening_read};

use crate::conferences::conferences_of;
use crate::damaged::damaged;
use crate::error::LedgerError;
use crate::ledger::Ledger;
use crate::opening::{Opening, opening_of};
use crate::upload::Uploads;
use crate::uploads::uploads_of;
use crate::user::Users;
use crate::users::users_of;
use jam_records::DamageRule;
use setup_file::{Conferences, Setup, SetupFields};
use std::alloc::Global;

/// The fields of a setup with these conferences in place of their own.
fn with_conferences(setup: SetupFields, conferences: Conferences) -> SetupFields
    ensures { result ≡ setup_with setup conferences }
{
    SetupFields {
        conferences,
        ..setup
    }
}

/// The conferences, the users and the upload records behind record 0, or the first rule that they break.
fn records_of(
    alloc: Global,
    opening: &Opening,
    bytes: &[u8],
) -> Result<(Conferences, Users, Uploads), LedgerError>
    requires opening { opening_read bytes.now ≡ Ok opening.now }
    requires size { opening.now.size ≤ length bytes.now }
    requires counts { (opening.now.conferences ≤ 64) × (opening.now.users ≤ user_limit) × (opening.now.uploads ≤ upload_limit) }
    ensures { LedgerGives (λ x. ledger_with opening.now x.0 x.1 x.2) result (ledger_in bytes.now) }
{
    let (conferences, rest) = conferences_of(alloc, opening.conferences, &bytes[opening.size..])?;
    let (users, rest) = users_of(
        alloc,
        opening.version,
        opening.conferences,
        opening.users,
        rest,
    )?;
    let first = 1 + u32::from(opening.conferences) + u32::from(opening.users);
    let (uploads, rest) = uploads_of(alloc, first, opening.users, opening.uploads, rest)?;
    if !rest.is_empty() {
        return Err(damaged(first + opening.uploads, DamageRule::Rest));
    }
    Ok((conferences, users, uploads))
}

/// The ledger of the bytes, or the first rule that they break.
pub(crate) fn ledger_of(alloc: Global, bytes: &[u8]) -> Result<Ledger, LedgerError>
    ensures { LedgerGives (λ x. x) result (ledger_in bytes.now) }
{
    let opening = opening_of(alloc, bytes)?;
    let (conferences, users, uploads) = records_of(alloc, &opening, bytes)?;
    Ok(Ledger {
        version: opening.version.number(),
        setup: Setup::of(with_conferences(opening.setup, conferences)),
        created: opening.created,
        users,
        uploads,
    })
}
