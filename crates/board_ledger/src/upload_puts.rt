ghost use Rattle.std.specs.Prelude.{◌≡◌, ◌+◌, ◌<◌, ◌^◌, length, IfOk};
ghost use Rattle.jam_records.specs.record_numbers.Numbers.{u32_text};
ghost use Rattle.board_ledger.specs.Uploads.{upload_text};
ghost use Rattle.intent_journal.specs.declared.patch.Patch.{Patch};
ghost use Rattle.intent_journal.specs.Patches.{byte_count};
ghost use Rattle.intent_journal.specs.door_outside.File.{ledger_file};
ghost use Rattle.board_ledger.specs.Ledger.{ledger_text};
ghost use Rattle.board_ledger.specs.OneFile.{TurnsFile};
ghost use Rattle.board_ledger.specs.UploadPuts.{with_upload, upload_puts as puts_of};
ghost use Rattle.board_ledger.specs.Valid.{IsLedger};

use crate::ledger::Ledger;
use crate::size::ledger_size;
use crate::upload::UploadRecord;
use intent_journal::{FileId, Patch, Patches};
use jam_records::Bytes;
use open_offers::add_u32;
use std::alloc::{AllocError, Global};

/// The patch of the count of upload records, which is one more.
fn count_put(alloc: Global, ledger: &Ledger) -> Result<Patch, AllocError>
    requires { IsLedger ledger.now }
    ensures { IfOk result (λ patch. patch ≡ Patch.Put ledger_file 12 (u32_text (length ledger.now.uploads + 1))) }
{
    let mut bytes = Bytes::new(alloc);
    add_u32(&mut bytes, ledger.uploads.len() as u32 + 1)?;
    let file = FileId::ledger();
    Ok(Patch::Put {
        file,
        at: 12,
        bytes,
    })
}

/// The patch of a record at the end.
fn record_put(alloc: Global, ledger: &Ledger, added: &UploadRecord) -> Result<Patch, AllocError>
    requires ledger { IsLedger ledger.now }
    requires user { added.now.user < 2 ^ 16 }
    ensures { IfOk result (λ patch. patch ≡ Patch.Put ledger_file (length (ledger_text ledger.now)) (upload_text added.now)) }
{
    let mut bytes = Bytes::new(alloc);
    added.write(&mut bytes)?;
    let file = FileId::ledger();
    let at = ledger_size(ledger) as u32;
    Ok(Patch::Put { file, at, bytes })
}

/// The patches that turn the file of this ledger into that of the ledger with this record at its end. Both
/// ledgers are valid.
///
/// The error comes where there is no memory.
pub fn upload_patches(
    alloc: Global,
    ledger: &Ledger,
    added: &UploadRecord,
) -> Result<Patches, AllocError>
    requires ledger { IsLedger ledger.now }
    requires longer { IsLedger (with_upload added.now ledger.now) }
    ensures puts { IfOk result (λ patches. patches ≡ puts_of ledger.now added.now) }
    ensures files { IfOk result (λ patches. TurnsFile ledger_file (ledger_text ledger.now) (ledger_text (with_upload added.now ledger.now)) patches) }
    ensures costs { IfOk result (λ patches. (length patches ≡ 2) × (byte_count patches ≡ 46)) }
{
    let mut patches = Patches::new(alloc);
    patches.add(count_put(alloc, ledger)?)?;
    patches.add(record_put(alloc, ledger, added)?)?;
    Ok(patches)
}
