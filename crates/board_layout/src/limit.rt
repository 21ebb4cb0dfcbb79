// How long the data files may be together.
ghost use Rattle.std.specs.Prelude.{◌≡◌, ◌≤◌, ◌&&◌, ◌==◌, length, take, IfOk, IsTrue};
ghost use Rattle.std.specs.Str.{bytes_eq};
ghost use Rattle.board_layout.specs.Damage.{is_old_text, size_limit as limit_of};
ghost use Rattle.board_ledger.specs.Opening.{magic};
ghost use Rattle.door_outside.specs.Cause.{HasCause};
ghost use Rattle.door_outside.specs.Disk.{Unchanged};
ghost use Rattle.door_outside.specs.File.{ledger_file};
ghost use Rattle.jam_records.specs.record_numbers.Numbers.{u16_at as u16_in};

use crate::board::BOARD_LIMIT;
use door_outside::{DiskFault, FileId, Host};
use jam_records::u16_at;

/// How many bytes the data files may have together where their ledger is of version 1.
const OLD_LIMIT: u64 = 33_554_432;

/// Whether bytes begin as a ledger of version 1 does.
fn is_first(head: &[u8]) -> bool
    requires { 6 ≤ length head.now }
    ensures { result ≡ (bytes_eq (take 4 head.now) magic && u16_in 4 head.now == 1) }
{
    &head[..4] == b"QMDL".as_slice() && u16_at(head, 4) == 1
}

/// Whether file 0 has the 24 bytes that a ledger begins with, of version 1.
fn is_old<H: Host>(host: &mut H) -> Result<bool, DiskFault>
    ensures value { IsTrue H.tells → IfOk result (λ is. is ≡ is_old_text ((H.disk host.old).files ledger_file)) }
    ensures unchanged { IsTrue H.tells → Unchanged (H.disk host.old) (H.disk host.new) }
    ensures cause { HasCause (H.disk_faults host.old) (H.disk_faults host.new) result }
    ensures voice { H.voice_faults host.new ≡ H.voice_faults host.old }
{
    let len = host.length(FileId::ledger())?;
    let mut head = [0u8; 6];
    let count = host.read_at(FileId::ledger(), 0, &mut head)?;
    // A host that changes between the calls may give fewer bytes than it has.
    Ok(len >= 24 && (count == 6 && is_first(&head)))
}

/// How many bytes the data files may have together, by the version of their ledger.
pub(crate) fn size_limit<H: Host>(host: &mut H) -> Result<u64, DiskFault>
    ensures value { IsTrue H.tells → IfOk result (λ limit. limit ≡ limit_of ((H.disk host.old).files ledger_file)) }
    ensures unchanged { IsTrue H.tells → Unchanged (H.disk host.old) (H.disk host.new) }
    ensures cause { HasCause (H.disk_faults host.old) (H.disk_faults host.new) result }
    ensures voice { H.voice_faults host.new ≡ H.voice_faults host.old }
{
    if is_old(host)? {
        return Ok(OLD_LIMIT);
    }
    Ok(BOARD_LIMIT)
}
