ghost use Rattle.std.specs.Prelude.{◌≡◌, ◌≤◌, length, IfOk};
ghost use Rattle.intent_journal.specs.door_outside.File.{ledger_file};
ghost use Rattle.intent_journal.specs.Patches.{byte_count};
ghost use Rattle.board_ledger.specs.Ledger.{ledger_text};
ghost use Rattle.board_ledger.specs.OneFile.{TurnsFile};
ghost use Rattle.board_ledger.specs.UserPuts.{with_user_at, user_puts as puts_of, IsAsLong};
ghost use Rattle.board_ledger.specs.Valid.{IsLedger};

use crate::ledger::Ledger;
use crate::size::user_place;
use crate::user::User;
use intent_journal::{FileId, Patch, Patches};
use jam_records::Bytes;
use std::alloc::{AllocError, Global};

/// The patches that turn the file of this ledger into that of the ledger with this user in a place, from 0, whose
/// name is as long as that of the user there, as then the record is. Both ledgers are valid.
///
/// The error comes where there is no memory.
pub fn user_patches(
    alloc: Global,
    ledger: &Ledger,
    place: usize,
    user: &User,
) -> Result<Patches, AllocError>
    requires ledger { IsLedger ledger.now }
    requires next { IsLedger (with_user_at place user.now ledger.now) }
    requires room { IsAsLong place user.now ledger.now }
    ensures puts { IfOk result (λ patches. patches ≡ puts_of place user.now ledger.now) }
    ensures files { IfOk result (λ patches. TurnsFile ledger_file (ledger_text ledger.now) (ledger_text (with_user_at place user.now ledger.now)) patches) }
    ensures costs { IfOk result (λ patches. (length patches ≡ 1) × (byte_count patches ≤ 1080)) }
{
    let conferences = ledger.setup.fields().conferences.len() as u16;
    let mut bytes = Bytes::new(alloc);
    user.write(&mut bytes, conferences)?;
    let file = FileId::ledger();
    let at = user_place(ledger, place) as u32;
    let mut patches = Patches::new(alloc);
    patches.add(Patch::Put { file, at, bytes })?;
    Ok(patches)
}
