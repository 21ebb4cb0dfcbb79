ghost use Rattle.std.specs.Prelude.{◌≡◌, ◌≤◌, ◌+◌, ◌*◌, ◌<◌, ◌^◌, ◌++◌, length, IfOk};
ghost use Rattle.std.specs.List.{flat_map};
ghost use Rattle.jam_records.specs.record_numbers.Numbers.{u16_text};
ghost use Rattle.intent_journal.specs.declared.patch.Patch.{Patch};
ghost use Rattle.intent_journal.specs.Patches.{byte_count};
ghost use Rattle.intent_journal.specs.door_outside.File.{ledger_file};
ghost use Rattle.board_ledger.specs.EnrollPuts.{with_user, enroll_puts as puts_of};
ghost use Rattle.board_ledger.specs.Ledger.{ledger_text};
ghost use Rattle.board_ledger.specs.OneFile.{TurnsFile};
ghost use Rattle.board_ledger.specs.Uploads.{upload_text, upload_size};
ghost use Rattle.board_ledger.specs.UserPuts.{record_in, user_place as user_place_of};
ghost use Rattle.board_ledger.specs.Valid.{IsLedger};

use crate::ledger::Ledger;
use crate::size::user_place;
use crate::uploads::add_uploads;
use crate::user::User;
use intent_journal::{FileId, Patch, Patches};
use jam_records::Bytes;
use open_offers::add_u16;
use std::alloc::{AllocError, Global};

/// The patch of the count of users, which is one more.
fn count_put(alloc: Global, ledger: &Ledger) -> Result<Patch, AllocError>
    requires { IsLedger ledger.now }
    ensures { IfOk result (λ patch. patch ≡ Patch.Put ledger_file 8 (u16_text (length ledger.now.users + 1))) }
{
    let mut bytes = Bytes::new(alloc);
    add_u16(&mut bytes, ledger.users.len() as u16 + 1)?;
    let file = FileId::ledger();
    Ok(Patch::Put { file, at: 8, bytes })
}

/// The patch of a user's record behind the others, and of the upload records, which stand behind it.
fn records_put(alloc: Global, ledger: &Ledger, user: &User) -> Result<Patch, AllocError>
    requires ledger { IsLedger ledger.now }
    requires name { length user.now.name < 2 ^ 16 }
    requires offers { length user.now.offers ≤ 4 }
    ensures { IfOk result (λ patch. patch ≡ Patch.Put ledger_file (user_place_of (length ledger.now.users) ledger.now) (record_in ledger.now user.now ++ flat_map upload_text ledger.now.uploads)) }
{
    let conferences = ledger.setup.fields().conferences.len() as u16;
    let mut bytes = Bytes::new(alloc);
    user.write(&mut bytes, conferences)?;
    add_uploads(&mut bytes, ledger.uploads.as_slice())?;
    let file = FileId::ledger();
    let at = user_place(ledger, ledger.users.len()) as u32;
    Ok(Patch::Put { file, at, bytes })
}

/// The patches that turn the file of this ledger into that of the ledger with this user behind the others. Both
/// ledgers are valid. The upload records are put anew, since they stand one user's record later.
///
/// The error comes where there is no memory.
pub fn enroll_patches(alloc: Global, ledger: &Ledger, user: &User) -> Result<Patches, AllocError>
    requires ledger { IsLedger ledger.now }
    requires longer { IsLedger (with_user user.now ledger.now) }
    ensures puts { IfOk result (λ patches. patches ≡ puts_of ledger.now user.now) }
    ensures files { IfOk result (λ patches. TurnsFile ledger_file (ledger_text ledger.now) (ledger_text (with_user user.now ledger.now)) patches) }
    ensures costs { IfOk result (λ patches. (length patches ≡ 2) × (byte_count patches ≡ 2 + length (record_in ledger.now user.now) + upload_size * length ledger.now.uploads)) }
{
    let mut patches = Patches::new(alloc);
    patches.add(count_put(alloc, ledger)?)?;
    patches.add(records_put(alloc, ledger, user)?)?;
    Ok(patches)
}
