// Carrying out patches.
ghost use Rattle.std.specs.Prelude.{◌≡◌, ◌+◌, ◌<◌, ◌≤◌, ◌^◌, false, length, Some, OnOk, IsTrue};
ghost use Rattle.door_outside.specs.Cause.{HasCause};
ghost use Rattle.door_outside.specs.Disk.{Passes, InFile, HoldsBytes, Between, AllNow, as_read};
ghost use Rattle.intent_journal.specs.Hosts.{IsCalm};
ghost use Rattle.intent_journal.specs.Journal.{patch_by, patches_of, spelled};
ghost use Rattle.intent_journal.specs.Patches.{are_within, byte_count, data_files, is_once, patched, patched_file};
ghost use Rattle.intent_journal.specs.Recovered.{recovered, Back};
ghost use Rattle.intent_journal.specs.Steps.{Anyhow, AreDurable, IsOpen, IsSure, OnlySynced, Partly, Stands};

use crate::gate::{CLOSED, set_gate};
use crate::marks::FileMarks;
use crate::reading::{PatchHead, front_patch};
use door_outside::{DiskFault, FileId, Host};

/// Makes these bytes the file's content.
fn write_whole<H: Host>(host: &mut H, file: FileId, bytes: &[u8]) -> Result<(), DiskFault>
    requires { length bytes.now < 2 ^ 31 }
    ensures crash { IsTrue H.tells → Passes (InFile file Anyhow) (InFile file Anyhow) (H.disk host.old) (H.disk host.new) }
    ensures done { OnOk result (IsTrue H.tells → HoldsBytes file bytes.now (H.disk host.old).files (H.disk host.new).files) }
    ensures wrote { IsTrue H.tells → (H.disk host.new).wrote ≤ (H.disk host.old).wrote + length bytes.now }
    ensures cause { HasCause (H.disk_faults host.old) (H.disk_faults host.new) result }
    ensures voice { H.voice_faults host.new ≡ H.voice_faults host.old }
{
    host.write_at(file, 0, bytes)?;
    host.cut(file, bytes.len() as u32)?;
    Ok(())
}

/// Carries out a patch.
fn write_patch<H: Host>(host: &mut H, head: PatchHead, bytes: &[u8]) -> Result<(), DiskFault>
    requires { head.at + length bytes.now < 2 ^ 31 }
    ensures crash { IsTrue H.tells → let step = InFile head.file (Partly (patch_by head.whole head.file head.at bytes.now)) in Passes step step (H.disk host.old) (H.disk host.new) }
    ensures done { OnOk result (IsTrue H.tells → HoldsBytes head.file (patched_file (patch_by head.whole head.file head.at bytes.now) ((H.disk host.old).files head.file)) (H.disk host.old).files (H.disk host.new).files) }
    ensures wrote { IsTrue H.tells → (H.disk host.new).wrote ≤ (H.disk host.old).wrote + length bytes.now }
    ensures cause { HasCause (H.disk_faults host.old) (H.disk_faults host.new) result }
    ensures voice { H.voice_faults host.new ≡ H.voice_faults host.old }
{
    if head.whole {
        write_whole(host, head.file, bytes)
    } else {
        host.write_at(head.file, head.at, bytes)
    }
}

/// Carries out the patches of a text, in order.
fn write_patches<H: Host>(host: &mut H, count: u32, text: &[u8]) -> Result<(), DiskFault>
    requires reads { patches_of count text.now ≡ Some (spelled count text.now) }
    requires once { IsTrue (is_once (spelled count text.now)) }
    requires stands { IsTrue H.tells → AllNow (H.disk host.old) (Stands (spelled count text.now) (as_read (H.disk host.old))) }
    ensures moments { IsTrue H.tells → Between (H.disk host.old) (H.disk host.new) (Stands (spelled count text.now) (as_read (H.disk host.old))) }
    ensures now { IsTrue H.tells → AllNow (H.disk host.new) (Stands (spelled count text.now) (as_read (H.disk host.old))) }
    ensures done { OnOk result (IsTrue H.tells → data_files (H.disk host.new).files ≡ data_files (patched (spelled count text.now) (H.disk host.old).files)) }
    ensures wrote { IsTrue H.tells → (H.disk host.new).wrote ≤ (H.disk host.old).wrote + byte_count (spelled count text.now) }
    ensures cause { HasCause (H.disk_faults host.old) (H.disk_faults host.new) result }
    ensures voice { H.voice_faults host.new ≡ H.voice_faults host.old }
{
    let mut rest = text;
    for _done in 0..count {
        let Some((head, bytes, after)) = front_patch(rest) else {
            unreachable!()
        };
        write_patch(host, head, bytes)?;
        rest = after;
    }
    Ok(())
}

/// Makes a file durable that isn't yet.
fn sync_once<H: Host>(host: &mut H, file: FileId, is_durable: bool) -> Result<(), DiskFault>
    ensures only { IsTrue H.tells → OnlySynced (H.disk host.old) (H.disk host.new) }
    ensures durable { OnOk result (IsTrue H.tells → is_durable ≡ false → AllNow (H.disk host.new) (λ image. image.files file ≡ (H.disk host.new).files file)) }
    ensures cause { HasCause (H.disk_faults host.old) (H.disk_faults host.new) result }
    ensures voice { H.voice_faults host.new ≡ H.voice_faults host.old }
{
    if is_durable {
        return Ok(());
    }
    host.sync(file)?;
    Ok(())
}

/// Makes the files of the patches of a text durable, each by one sync.
fn sync_files<H: Host>(host: &mut H, count: u32, text: &[u8]) -> Result<(), DiskFault>
    requires { patches_of count text.now ≡ Some (spelled count text.now) }
    ensures only { IsTrue H.tells → OnlySynced (H.disk host.old) (H.disk host.new) }
    ensures durable { OnOk result (IsTrue H.tells → AreDurable (spelled count text.now) (H.disk host.new)) }
    ensures cause { HasCause (H.disk_faults host.old) (H.disk_faults host.new) result }
    ensures voice { H.voice_faults host.new ≡ H.voice_faults host.old }
{
    let mut seen = FileMarks::new();
    let mut rest = text;
    for _done in 0..count {
        let Some((head, _, after)) = front_patch(rest) else {
            unreachable!()
        };
        sync_once(host, head.file, seen.touches(head.file))?;
        seen.mark(head.file, head.whole);
        rest = after;
    }
    Ok(())
}

/// Carries out the patches of a text, in order, and makes each file that they change durable behind the last
/// of them.
fn carry_out<H: Host>(host: &mut H, count: u32, text: &[u8]) -> Result<(), DiskFault>
    requires reads { patches_of count text.now ≡ Some (spelled count text.now) }
    requires once { IsTrue (is_once (spelled count text.now)) }
    requires stands { IsTrue H.tells → AllNow (H.disk host.old) (Stands (spelled count text.now) (as_read (H.disk host.old))) }

    // At each moment of the call the patches give the same data files.
    ensures moments { IsTrue H.tells → Between (H.disk host.old) (H.disk host.new) (Stands (spelled count text.now) (as_read (H.disk host.old))) }
    ensures now { IsTrue H.tells → AllNow (H.disk host.new) (Stands (spelled count text.now) (as_read (H.disk host.old))) }
    ensures ok { OnOk result (IsTrue H.tells → AllNow (H.disk host.new) (λ image. data_files image.files ≡ data_files (patched (spelled count text.now) (H.disk host.old).files))) }
    ensures wrote { IsTrue H.tells → (H.disk host.new).wrote ≤ (H.disk host.old).wrote + byte_count (spelled count text.now) }
    ensures cause { HasCause (H.disk_faults host.old) (H.disk_faults host.new) result }
    ensures voice { H.voice_faults host.new ≡ H.voice_faults host.old }
{
    write_patches(host, count, text)?;
    sync_files(host, count, text)?;
    Ok(())
}

/// Carries out the patches of an open journal, and closes the gate.
pub(crate) fn replay<H: Host>(host: &mut H, count: u32, text: &[u8]) -> Result<(), DiskFault>
    requires reads { patches_of count text.now ≡ Some (spelled count text.now) }
    requires once { IsTrue (is_once (spelled count text.now)) }
    requires sure { IsTrue H.tells → IsSure (H.disk host.old) }
    requires intent { IsTrue H.tells → IsOpen (spelled count text.now) ((H.disk host.old).files 1) }
    requires within { IsTrue H.tells → IsTrue (are_within (spelled count text.now) (H.disk host.old).files) }
    ensures moments { IsTrue H.tells → Between (H.disk host.old) (H.disk host.new) (Back (H.disk host.old)) }
    ensures now { IsTrue H.tells → AllNow (H.disk host.new) (Back (H.disk host.old)) }
    ensures calm { OnOk result (IsTrue H.tells → IsCalm (H.disk host.new)) }
    ensures done { OnOk result (IsTrue H.tells → data_files (H.disk host.new).files ≡ recovered (H.disk host.old).files) }
    ensures wrote { IsTrue H.tells → (H.disk host.new).wrote ≤ (H.disk host.old).wrote + byte_count (spelled count text.now) + 1 }
    ensures cause { HasCause (H.disk_faults host.old) (H.disk_faults host.new) result }
    ensures voice { H.voice_faults host.new ≡ H.voice_faults host.old }
{
    carry_out(host, count, text)?;
    set_gate(host, CLOSED)?;
    Ok(())
}
