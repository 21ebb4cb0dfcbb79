ghost use Rattle.std.specs.Prelude.{◌≡◌};

use crate::error::BaseError;
use door_outside::FileId;
use jam_records::{Damage, DamageRule};

/// The error for a record of a file.
pub fn damaged(file: FileId, item: u32, rule: DamageRule) -> BaseError
    ensures { result ≡ BaseError.Damaged record { file = file; item = item; rule = rule } }
{
    BaseError::Damaged(Damage {
        file: file.number(),
        item,
        rule,
    })
}
