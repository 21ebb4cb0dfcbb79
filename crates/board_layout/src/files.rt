// Reading files whole.
ghost use Rattle.std.specs.Prelude.{◌≡◌, ◌<◌, ◌^◌, length, Ok, IfOk, IsTrue};
ghost use Rattle.board_layout.specs.Rules.{ReadGives, HasReadCause};
ghost use Rattle.door_outside.specs.Disk.{Unchanged};
ghost use Rattle.jam_base.specs.Change.{files_of_place};

use crate::error::ReadError;
use door_outside::{FileId, Host};
use jam_base::BaseFiles;
use jam_records::Bytes;
use std::alloc::Global;

/// All bytes of a file, as many as the host gives.
pub(crate) fn read_file<H: Host>(
    alloc: Global,
    host: &mut H,
    file: FileId,
) -> Result<Bytes, ReadError>
    ensures short { IfOk result (λ bytes. length bytes < 2 ^ 31) }
    ensures unchanged { IsTrue H.tells → Unchanged (H.disk host.old) (H.disk host.new) }
    ensures gives { IsTrue H.tells → ReadGives (λ bytes. bytes) result (Ok ((H.disk host.old).files file)) }
    ensures cause { HasReadCause (H.disk_faults host.old) (H.disk_faults host.new) result }
    ensures voice { H.voice_faults host.new ≡ H.voice_faults host.old }
{
    let len = host.length(file)?;
    let mut bytes = vec![in alloc; 0u8; len as usize]?;
    let count = host.read_at(file, 0, &mut bytes)?;
    bytes.truncate(count);
    Ok(Bytes::from_vec(bytes))
}

/// The four files of a place.
pub(crate) fn read_files<H: Host>(
    alloc: Global,
    host: &mut H,
    place: u8,
) -> Result<BaseFiles, ReadError>
    requires { place < 64 }
    ensures jhr { IfOk result (λ files. length files.jhr < 2 ^ 31) }
    ensures jdt { IfOk result (λ files. length files.jdt < 2 ^ 31) }
    ensures jdx { IfOk result (λ files. length files.jdx < 2 ^ 31) }
    ensures jlr { IfOk result (λ files. length files.jlr < 2 ^ 31) }
    ensures unchanged { IsTrue H.tells → Unchanged (H.disk host.old) (H.disk host.new) }
    ensures gives { IsTrue H.tells → ReadGives (λ files. files) result (Ok (files_of_place place (H.disk host.old).files)) }
    ensures cause { HasReadCause (H.disk_faults host.old) (H.disk_faults host.new) result }
    ensures voice { H.voice_faults host.new ≡ H.voice_faults host.old }
{
    Ok(BaseFiles {
        jhr: read_file(alloc, host, FileId::jhr(place))?,
        jdt: read_file(alloc, host, FileId::jdt(place))?,
        jdx: read_file(alloc, host, FileId::jdx(place))?,
        jlr: read_file(alloc, host, FileId::jlr(place))?,
    })
}
