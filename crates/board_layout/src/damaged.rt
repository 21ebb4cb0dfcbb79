ghost use Rattle.std.specs.Prelude.{◌≡◌};

use door_outside::FileId;
use jam_records::{Damage, DamageRule};

/// The damage of a record of a file.
pub(crate) fn damage(file: FileId, item: u32, rule: DamageRule) -> Damage
    ensures { result ≡ record { file = file; item = item; rule = rule } }
{
    Damage {
        file: file.number(),
        item,
        rule,
    }
}
