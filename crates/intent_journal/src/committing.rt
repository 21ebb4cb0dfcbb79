// Committing an intent.
ghost use Rattle.std.specs.Prelude.{◌≡◌, ◌+◌, ◌*◌, ◌<◌, ◌≤◌, ◌^◌, length, OnOk, IsTrue};
ghost use Rattle.door_outside.specs.Cause.{HasCause};
ghost use Rattle.door_outside.specs.Disk.{Passes, InFile, HoldsBytes, Between, AllNow, as_read, written};
ghost use Rattle.intent_journal.specs.Hosts.{IsCalm, IsSettled};
ghost use Rattle.intent_journal.specs.Journal.{spelled, IsSpelled};
ghost use Rattle.intent_journal.specs.Patches.{are_within, byte_count, data_files, patched};
ghost use Rattle.intent_journal.specs.Recovered.{OldOrPatched};
ghost use Rattle.intent_journal.specs.Steps.{BehindGate, HasJournalBody, JournalKept, Quiet, IsShut, IsStaged};

use crate::carrying::replay;
use crate::gate::{CLOSED, OPEN, set_gate};
use crate::headers::body_header;
use crate::intent::Intent;
use door_outside::{DiskFault, FileId, Host};

/// Puts a closed gate into an empty journal.
fn shut<H: Host>(host: &mut H) -> Result<(), DiskFault>
    requires { IsTrue H.tells → IsCalm (H.disk host.old) }
    ensures moments { IsTrue H.tells → Between (H.disk host.old) (H.disk host.new) (Quiet (as_read (H.disk host.old))) }
    ensures now { IsTrue H.tells → AllNow (H.disk host.new) (Quiet (as_read (H.disk host.old))) }
    ensures ok { OnOk result (IsTrue H.tells → IsShut (H.disk host.old) (H.disk host.new)) }
    ensures wrote { IsTrue H.tells → (H.disk host.new).wrote ≤ (H.disk host.old).wrote + 1 }
    ensures cause { HasCause (H.disk_faults host.old) (H.disk_faults host.new) result }
    ensures voice { H.voice_faults host.new ≡ H.voice_faults host.old }
{
    let mut gate = [0u8; 1];
    if host.read_at(FileId::journal(), 0, &mut gate)? == 0 {
        set_gate(host, CLOSED)?;
    }
    Ok(())
}

/// Writes bytes of the journal behind its gate.
fn write_behind<H: Host>(host: &mut H, at: u32, bytes: &[u8]) -> Result<(), DiskFault>
    requires behind { 1 ≤ at }
    requires in_range { at + length bytes.now < 2 ^ 31 }
    ensures crash { IsTrue H.tells → Passes (InFile 1 BehindGate) (InFile 1 BehindGate) (H.disk host.old) (H.disk host.new) }
    ensures done { OnOk result (IsTrue H.tells → HoldsBytes 1 (written ((H.disk host.old).files 1) at bytes.now) (H.disk host.old).files (H.disk host.new).files) }
    ensures wrote { IsTrue H.tells → (H.disk host.new).wrote ≤ (H.disk host.old).wrote + length bytes.now }
    ensures cause { HasCause (H.disk_faults host.old) (H.disk_faults host.new) result }
    ensures voice { H.voice_faults host.new ≡ H.voice_faults host.old }
{
    host.write_at(FileId::journal(), at, bytes)
}

/// Writes the patches behind the gate, and makes them durable.
fn write_body<H: Host>(host: &mut H, count: u32, text: &[u8]) -> Result<(), DiskFault>
    requires { IsSpelled count text.now }
    ensures crash { IsTrue H.tells → Passes (InFile 1 BehindGate) (InFile 1 BehindGate) (H.disk host.old) (H.disk host.new) }
    ensures done { OnOk result (IsTrue H.tells → 0 < length ((H.disk host.old).files 1) → HasJournalBody count text.now (H.disk host.old).files (H.disk host.new).files) }
    ensures kept { OnOk result (IsTrue H.tells → JournalKept (H.disk host.new)) }
    ensures wrote { IsTrue H.tells → (H.disk host.new).wrote ≤ (H.disk host.old).wrote + 12 + length text.now }
    ensures cause { HasCause (H.disk_faults host.old) (H.disk_faults host.new) result }
    ensures voice { H.voice_faults host.new ≡ H.voice_faults host.old }
{
    let header = body_header(count, text.len() as u32);
    write_behind(host, 1, &header)?;
    write_behind(host, 13, text)?;
    host.sync(FileId::journal())?;
    Ok(())
}

/// Writes an intent behind a closed gate.
fn stage<H: Host>(host: &mut H, count: u32, text: &[u8]) -> Result<(), DiskFault>
    requires spelled { IsSpelled count text.now }
    requires calm { IsTrue H.tells → IsCalm (H.disk host.old) }
    ensures moments { IsTrue H.tells → Between (H.disk host.old) (H.disk host.new) (Quiet (as_read (H.disk host.old))) }
    ensures now { IsTrue H.tells → AllNow (H.disk host.new) (Quiet (as_read (H.disk host.old))) }
    ensures ok { OnOk result (IsTrue H.tells → IsStaged (spelled count text.now) (H.disk host.old) (H.disk host.new)) }
    ensures wrote { IsTrue H.tells → (H.disk host.new).wrote ≤ (H.disk host.old).wrote + 13 + length text.now }
    ensures cause { HasCause (H.disk_faults host.old) (H.disk_faults host.new) result }
    ensures voice { H.voice_faults host.new ≡ H.voice_faults host.old }
{
    shut(host)?;
    write_body(host, count, text)?;
    Ok(())
}

/// Opens the gate, carries the patches out and closes the gate.
fn finish<H: Host>(host: &mut H, count: u32, text: &[u8]) -> Result<(), DiskFault>
    requires spelled { IsSpelled count text.now }
    requires staged { IsTrue H.tells → IsStaged (spelled count text.now) (H.disk host.old) (H.disk host.old) }
    requires within { IsTrue H.tells → IsTrue (are_within (spelled count text.now) (H.disk host.old).files) }
    ensures moments { IsTrue H.tells → Between (H.disk host.old) (H.disk host.new) (OldOrPatched (spelled count text.now) (H.disk host.old)) }
    ensures now { IsTrue H.tells → AllNow (H.disk host.new) (OldOrPatched (spelled count text.now) (H.disk host.old)) }
    ensures settled { IsTrue H.tells → IsSettled (H.disk host.new) }
    ensures calm { OnOk result (IsTrue H.tells → IsCalm (H.disk host.new)) }
    ensures done { OnOk result (IsTrue H.tells → data_files (H.disk host.new).files ≡ data_files (patched (spelled count text.now) (H.disk host.old).files)) }
    ensures wrote { IsTrue H.tells → (H.disk host.new).wrote ≤ (H.disk host.old).wrote + byte_count (spelled count text.now) + 2 }
    ensures cause { HasCause (H.disk_faults host.old) (H.disk_faults host.new) result }
    ensures voice { H.voice_faults host.new ≡ H.voice_faults host.old }
{
    set_gate(host, OPEN)?;
    replay(host, count, text)?;
    Ok(())
}

/// Carries out all the patches of a text or none of them.
fn commit_text<H: Host>(host: &mut H, count: u32, text: &[u8]) -> Result<(), DiskFault>
    requires spelled { IsSpelled count text.now }
    requires calm { IsTrue H.tells → IsCalm (H.disk host.old) }
    requires within { IsTrue H.tells → IsTrue (are_within (spelled count text.now) (H.disk host.old).files) }
    ensures moments { IsTrue H.tells → Between (H.disk host.old) (H.disk host.new) (OldOrPatched (spelled count text.now) (H.disk host.old)) }
    ensures now { IsTrue H.tells → AllNow (H.disk host.new) (OldOrPatched (spelled count text.now) (H.disk host.old)) }
    ensures settled { IsTrue H.tells → IsSettled (H.disk host.new) }
    ensures calm { OnOk result (IsTrue H.tells → IsCalm (H.disk host.new)) }
    ensures done { OnOk result (IsTrue H.tells → data_files (H.disk host.new).files ≡ data_files (patched (spelled count text.now) (H.disk host.old).files)) }
    ensures wrote { IsTrue H.tells → (H.disk host.new).wrote ≤ (H.disk host.old).wrote + 2 * byte_count (spelled count text.now) + 11 * length (spelled count text.now) + 15 }
    ensures cause { HasCause (H.disk_faults host.old) (H.disk_faults host.new) result }
    ensures voice { H.voice_faults host.new ≡ H.voice_faults host.old }
{
    stage(host, count, text)?;
    finish(host, count, text)?;
    Ok(())
}

/// Carries out all the patches of an intent or none of them, at every moment. It takes no memory, and says
/// nothing. Each Put begins at most at the end of its file, as the patches before it leave it.
///
/// `DiskFault` comes only where the host's count of disk faults rose. After it call `recover`.
pub fn commit<H: Host>(host: &mut H, intent: &Intent) -> Result<(), DiskFault>
    requires calm { IsTrue H.tells → IsCalm (H.disk host.old) }
    requires within { IsTrue H.tells → IsTrue (are_within intent.now (H.disk host.old).files) }

    // A crash at any moment leaves the data files as they were, or with the patches.
    ensures moments { IsTrue H.tells → Between (H.disk host.old) (H.disk host.new) (OldOrPatched intent.now (H.disk host.old)) }
    ensures now { IsTrue H.tells → AllNow (H.disk host.new) (OldOrPatched intent.now (H.disk host.old)) }
    ensures settled { IsTrue H.tells → IsSettled (H.disk host.new) }

    ensures calm { OnOk result (IsTrue H.tells → IsCalm (H.disk host.new)) }
    ensures done { OnOk result (IsTrue H.tells → data_files (H.disk host.new).files ≡ data_files (patched intent.now (H.disk host.old).files)) }

    // At most what the patches put, twice, what stands before each in the journal, and 15 bytes.
    ensures wrote { IsTrue H.tells → (H.disk host.new).wrote ≤ (H.disk host.old).wrote + 2 * byte_count intent.now + 11 * length intent.now + 15 }

    ensures cause { HasCause (H.disk_faults host.old) (H.disk_faults host.new) result }
    ensures voice { H.voice_faults host.new ≡ H.voice_faults host.old }
{
    let (count, text) = intent.parts();
    commit_text(host, count, text)
}
