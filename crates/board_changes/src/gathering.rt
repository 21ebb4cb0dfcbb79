ghost use Rattle.std.specs.Prelude.{◌≡◌, ◌++◌, ◌∷◌, [], option_map, IfOk, IfSome, OnOk};
ghost use Rattle.board_changes.specs.Gathered.{Joins};
ghost use Rattle.board_changes.specs.Steps.{patches_or_none};
ghost use Rattle.board_ledger.specs.Ledger.{ledger_text};
ghost use Rattle.board_ledger.specs.Valid.{IsLedger};
ghost use Rattle.intent_journal.specs.door_outside.File.{ledger_file};

use board_layout::{Base, BaseChange};
use board_ledger::Ledger;
use intent_journal::{FileId, Intent, Patch, Patches};
use std::alloc::{AllocError, Global};

/// Adds patches at the end of an intent, which may have them all.
///
/// The error comes where there is no memory. Some of them were added then.
pub fn add_all(intent: &mut Intent, patches: Patches) -> Result<(), AllocError>
    requires { Joins intent.old patches }
    ensures { OnOk result (intent.new ≡ intent.old ++ patches) }
{
    for patch in patches.into_vec() {
        intent.add(patch)?;
    }
    Ok(())
}

/// The base after a change, where there is one, whose patches are added at the end of an intent, which may have them
/// all.
///
/// The error comes where there is no memory. Some of the patches were added then.
pub fn gather(change: Option<BaseChange>, intent: &mut Intent) -> Result<Option<Base>, AllocError>
    requires { IfSome change (λ c. Joins intent.old c.patches) }
    ensures base { IfOk result (λ base. base ≡ option_map (λ c. c.base) change) }
    ensures gathers { OnOk result (intent.new ≡ intent.old ++ patches_or_none change) }
{
    match change {
        None => Ok(None),
        Some(change) => {
            add_all(intent, change.patches)?;
            Ok(Some(change.base))
        }
    }
}

/// The intent of these patches, which an intent may have.
///
/// The error comes where there is no memory.
pub fn intent_with(alloc: Global, patches: Patches) -> Result<Intent, AllocError>
    requires { Joins [] patches }
    ensures { IfOk result (λ intent. intent ≡ patches) }
{
    let mut intent = Intent::new(alloc);
    add_all(&mut intent, patches)?;
    Ok(intent)
}

/// The intent that makes the file of a ledger, which is valid, and no other.
///
/// The error comes where there is no memory.
pub fn ledger_intent(alloc: Global, ledger: &Ledger) -> Result<Intent, AllocError>
    requires { IsLedger ledger.now }
    ensures { IfOk result (λ intent. intent ≡ Patch.Whole ledger_file (ledger_text ledger.now) ∷ []) }
{
    let bytes = ledger.write(alloc)?;
    let mut intent = Intent::new(alloc);
    intent.add(Patch::Whole {
        file: FileId::ledger(),
        bytes,
    })?;
    Ok(intent)
}
