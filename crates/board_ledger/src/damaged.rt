ghost use Rattle.std.specs.Prelude.{◌≡◌};

use crate::error::LedgerError;
use jam_records::{Damage, DamageRule};

/// The error for a record of the ledger, which is file 0.
pub(crate) fn damaged(item: u32, rule: DamageRule) -> LedgerError
    ensures { result ≡ LedgerError.Damaged record { file = 0; item = item; rule = rule } }
{
    LedgerError::Damaged(Damage {
        file: 0,
        item,
        rule,
    })
}
