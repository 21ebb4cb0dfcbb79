// How long files are.
ghost use Rattle.std.specs.Prelude.{◌≡◌, ◌<◌, ◌^◌, IfOk, IsTrue};
ghost use Rattle.board_layout.specs.Layout.{data_size as size_of_data};
ghost use Rattle.door_outside.specs.Cause.{HasCause};
ghost use Rattle.door_outside.specs.Disk.{Unchanged};
ghost use Rattle.jam_base.specs.Change.{files_of_place};
ghost use Rattle.jam_base.specs.jam_layout.Layout.{files_size};

use door_outside::{DiskFault, FileId, Host};

/// How many bytes the four files of a place have.
fn place_size<H: Host>(host: &mut H, place: u8) -> Result<u64, DiskFault>
    requires { place < 64 }
    ensures bound { IfOk result (λ size. size < 2 ^ 33) }
    ensures value { IsTrue H.tells → IfOk result (λ size. size ≡ files_size (files_of_place place (H.disk host.old).files)) }
    ensures unchanged { IsTrue H.tells → Unchanged (H.disk host.old) (H.disk host.new) }
    ensures cause { HasCause (H.disk_faults host.old) (H.disk_faults host.new) result }
    ensures voice { H.voice_faults host.new ≡ H.voice_faults host.old }
{
    let jhr = u64::from(host.length(FileId::jhr(place))?);
    let jdt = u64::from(host.length(FileId::jdt(place))?);
    let jdx = u64::from(host.length(FileId::jdx(place))?);
    let jlr = u64::from(host.length(FileId::jlr(place))?);
    Ok(jhr + (jdt + (jdx + jlr)))
}

/// How many bytes the data files have together.
pub(crate) fn data_size<H: Host>(host: &mut H) -> Result<u64, DiskFault>
    ensures value { IsTrue H.tells → IfOk result (λ size. size ≡ size_of_data (H.disk host.old).files) }
    ensures unchanged { IsTrue H.tells → Unchanged (H.disk host.old) (H.disk host.new) }
    ensures cause { HasCause (H.disk_faults host.old) (H.disk_faults host.new) result }
    ensures voice { H.voice_faults host.new ≡ H.voice_faults host.old }
{
    let mut size = u64::from(host.length(FileId::ledger())?);
    for place in 0..64 {
        size += place_size(host, place)?;
    }
    Ok(size)
}
