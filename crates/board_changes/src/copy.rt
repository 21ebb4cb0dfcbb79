ghost use Rattle.std.specs.Prelude.{◌≡◌, IfOk};

use board_ledger::Ledger;
use std::alloc::{AllocError, Global};

/// An equal ledger.
pub fn copy_of(alloc: Global, ledger: &Ledger) -> Result<Ledger, AllocError>
    ensures { IfOk result (λ copy. copy ≡ ledger.now) }
{
    Ok(Ledger {
        version: ledger.version,
        setup: ledger.setup.copy(alloc)?,
        created: ledger.created,
        users: ledger.users.copy(alloc)?,
        uploads: ledger.uploads.copy(alloc)?,
    })
}
