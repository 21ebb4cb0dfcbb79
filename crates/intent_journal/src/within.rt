// Whether each patch begins at most at the end of its file.
ghost use Rattle.std.specs.Prelude.{◌≡◌, ◌<◌, ◌||◌, nat_le, max, length, replicate, Some, IfOk, IsTrue};
ghost use Rattle.door_outside.specs.Cause.{HasCause};
ghost use Rattle.door_outside.specs.Disk.{Unchanged};
ghost use Rattle.door_outside.specs.File.{file_count};
ghost use Rattle.intent_journal.specs.Journal.{patches_of, spelled};
ghost use Rattle.intent_journal.specs.Patches.{are_within, is_once};

use crate::reading::{PatchHead, front_patch};
use door_outside::{DiskFault, FILE_COUNT, Host};

/// Whether a patch begins at most at the end of its file, where the patches so far lengthen it up to a
/// place.
fn is_within<H: Host>(host: &mut H, head: PatchHead, end: u32) -> Result<bool, DiskFault>
    ensures value { IfOk result (λ yes. IsTrue H.tells → yes ≡ (head.whole || nat_le head.at (max (length ((H.disk host.old).files head.file)) end))) }
    ensures unchanged { IsTrue H.tells → Unchanged (H.disk host.old) (H.disk host.new) }
    ensures cause { HasCause (H.disk_faults host.old) (H.disk_faults host.new) result }
    ensures voice { H.voice_faults host.new ≡ H.voice_faults host.old }
{
    if head.whole {
        return Ok(true);
    }
    if head.at <= end {
        return Ok(true);
    }
    let len = host.length(head.file)?;
    Ok(head.at <= len)
}

/// No file is lengthened yet.
fn no_ends() -> [u32; FILE_COUNT]
    ensures { result ≡ replicate file_count 0 }
{
    [0; FILE_COUNT]
}

/// Whether each patch of a text begins at most at the end of its file, as the patches before it leave it.
pub(crate) fn fits_files<H: Host>(host: &mut H, count: u32, text: &[u8]) -> Result<bool, DiskFault>
    requires reads { patches_of count text.now ≡ Some (spelled count text.now) }
    requires once { IsTrue (is_once (spelled count text.now)) }
    ensures value { IfOk result (λ yes. IsTrue H.tells → yes ≡ are_within (spelled count text.now) (H.disk host.old).files) }
    ensures unchanged { IsTrue H.tells → Unchanged (H.disk host.old) (H.disk host.new) }
    ensures cause { HasCause (H.disk_faults host.old) (H.disk_faults host.new) result }
    ensures voice { H.voice_faults host.new ≡ H.voice_faults host.old }
{
    let mut ends = no_ends();
    let mut rest = text;
    for _done in 0..count {
        let Some((head, bytes, after)) = front_patch(rest) else {
            unreachable!()
        };
        let place = usize::from(head.file.number());
        let end = ends[place];
        if !is_within(host, head, end)? {
            return Ok(false);
        }
        ends[place] = end.max(head.at + bytes.len() as u32);
        rest = after;
    }
    Ok(true)
}
