// The gate of the journal.
ghost use Rattle.std.specs.Prelude.{◌≡◌, ◌+◌, ◌≤◌, [], ◌∷◌, take, true, false, OnOk, IsTrue};
ghost use Rattle.door_outside.specs.Cause.{HasCause};
ghost use Rattle.door_outside.specs.Disk.{Passes, InFile, Torn, HoldsBytes, written};
ghost use Rattle.intent_journal.specs.Journal.{IsClosed};
ghost use Rattle.intent_journal.specs.Steps.{JournalKept};

use door_outside::{DiskFault, FileId, Host};

/// An open gate.
pub(crate) const OPEN: u8 = b'O';

/// A closed gate, as it is written. Any other byte but `O` is one too.
pub(crate) const CLOSED: u8 = b'C';

/// Writes the gate, and makes it durable.
pub(crate) fn set_gate<H: Host>(host: &mut H, gate: u8) -> Result<(), DiskFault>
    ensures crash { IsTrue H.tells → Passes (InFile 1 (Torn 0 1)) (InFile 1 (Torn 0 1)) (H.disk host.old) (H.disk host.new) }
    ensures done { OnOk result (IsTrue H.tells → HoldsBytes 1 (written ((H.disk host.old).files 1) 0 (gate ∷ [])) (H.disk host.old).files (H.disk host.new).files) }
    ensures kept { OnOk result (IsTrue H.tells → JournalKept (H.disk host.new)) }
    ensures wrote { IsTrue H.tells → (H.disk host.new).wrote ≤ (H.disk host.old).wrote + 1 }
    ensures cause { HasCause (H.disk_faults host.old) (H.disk_faults host.new) result }
    ensures voice { H.voice_faults host.new ≡ H.voice_faults host.old }
{
    host.write_at(FileId::journal(), 0, &[gate])?;
    host.sync(FileId::journal())?;
    Ok(())
}

/// Whether the gate is open.
pub(crate) fn is_open(journal: &[u8]) -> bool
    ensures yes { result ≡ true → take 1 journal.now ≡ 79 ∷ [] }
    ensures no { result ≡ false → IsClosed journal.now }
{
    match journal {
        [gate, ..] => *gate == OPEN,
        [] => false,
    }
}
