// Recovering what a crash left.
ghost use Rattle.std.specs.Prelude.{◌≡◌, [], ◌∷◌, ◌+◌, ◌≤◌, take, Some, OnOk, IsErrOf, IsTrue};
ghost use Rattle.door_outside.specs.Cause.{HasCause, Rose};
ghost use Rattle.door_outside.specs.Disk.{Between, AllNow, as_read};
ghost use Rattle.intent_journal.specs.Found.{JournalFinds, HasJournalText};
ghost use Rattle.intent_journal.specs.Hosts.{IsCalm, IsFirm, IsSettled};
ghost use Rattle.intent_journal.specs.Journal.{intent_of, patches_of, spelled};
ghost use Rattle.intent_journal.specs.Patches.{byte_count, data_files, is_once};
ghost use Rattle.intent_journal.specs.Recovered.{recovered, Back};
ghost use Rattle.intent_journal.specs.Steps.{IsOpen, IsSure};

use crate::carrying::replay;
use crate::found::{Found, read_journal};
use crate::gate::{CLOSED, set_gate};
use crate::reading::is_intent;
use crate::within::fits_files;
use door_outside::{DiskFault, FileId, Host};
use std::alloc::{AllocError, Global};
use thiserror::Error;

/// Why a recovery stopped. The files recover to the same as before.
#[derive(Clone, Copy, Debug, PartialEq, Eq, Error)]
pub enum JournalError {
    /// A file call of the host failed. The host's count of disk faults says how often.
    #[error("disk fault")]
    DiskFault,
    /// There is no memory for the patches in the journal. No file has changed.
    #[error("out of memory")]
    OutOfMemory,
}

impl From<DiskFault> for JournalError {
    ghost use Rattle.std.specs.Prelude.{◌≡◌};
    ghost use Rattle.intent_journal.specs.declared.recovery.JournalError.TheVariants.{DiskFault};

    ghost from_gives = { λ _ e. e ≡ DiskFault };

    fn from(_fault: DiskFault) -> JournalError {
        JournalError::DiskFault
    }
}

impl From<AllocError> for JournalError {
    ghost use Rattle.std.specs.Prelude.{◌≡◌};
    ghost use Rattle.intent_journal.specs.declared.recovery.JournalError.TheVariants.{OutOfMemory};

    ghost from_gives = { λ _ e. e ≡ OutOfMemory };

    fn from(_error: AllocError) -> JournalError {
        JournalError::OutOfMemory
    }
}

/// Makes the journal durable. A settled host is firm then.
fn settle<H: Host>(host: &mut H) -> Result<(), DiskFault>
    requires { IsTrue H.tells → IsSettled (H.disk host.old) }
    ensures moments { IsTrue H.tells → Between (H.disk host.old) (H.disk host.new) (Back (H.disk host.old)) }
    ensures settled { IsTrue H.tells → IsSettled (H.disk host.new) }
    ensures same { IsTrue H.tells → as_read (H.disk host.new) ≡ as_read (H.disk host.old) }
    ensures firm { IsTrue H.tells → IsFirm (H.disk host.old) → AllNow (H.disk host.new) (Back (H.disk host.old)) }
    ensures sure { OnOk result (IsTrue H.tells → IsSure (H.disk host.new)) }
    ensures wrote { IsTrue H.tells → (H.disk host.new).wrote ≡ (H.disk host.old).wrote }
    ensures cause { HasCause (H.disk_faults host.old) (H.disk_faults host.new) result }
    ensures voice { H.voice_faults host.new ≡ H.voice_faults host.old }
{
    host.sync(FileId::journal())?;
    Ok(())
}

/// Closes a gate over a body that is no intent.
fn close<H: Host>(host: &mut H) -> Result<(), DiskFault>
    requires sure { IsTrue H.tells → IsSure (H.disk host.old) }
    requires none { IsTrue H.tells → intent_of (H.disk host.old).files ≡ [] }
    requires gate { IsTrue H.tells → take 1 ((H.disk host.old).files 1) ≡ 79 ∷ [] }
    ensures moments { IsTrue H.tells → Between (H.disk host.old) (H.disk host.new) (Back (H.disk host.old)) }
    ensures now { IsTrue H.tells → AllNow (H.disk host.new) (Back (H.disk host.old)) }
    ensures calm { OnOk result (IsTrue H.tells → IsCalm (H.disk host.new)) }
    ensures done { OnOk result (IsTrue H.tells → data_files (H.disk host.new).files ≡ recovered (H.disk host.old).files) }
    ensures wrote { IsTrue H.tells → (H.disk host.new).wrote ≤ (H.disk host.old).wrote + 1 }
    ensures cause { HasCause (H.disk_faults host.old) (H.disk_faults host.new) result }
    ensures voice { H.voice_faults host.new ≡ H.voice_faults host.old }
{
    set_gate(host, CLOSED)?;
    Ok(())
}

/// Carries out the patches behind an open gate, or closes it over them where one begins past the end of its
/// file.
fn finish_open<H: Host>(host: &mut H, count: u32, text: &[u8]) -> Result<(), DiskFault>
    requires reads { patches_of count text.now ≡ Some (spelled count text.now) }
    requires once { IsTrue (is_once (spelled count text.now)) }
    requires sure { IsTrue H.tells → IsSure (H.disk host.old) }
    requires is_open { IsTrue H.tells → IsOpen (spelled count text.now) ((H.disk host.old).files 1) }
    ensures moments { IsTrue H.tells → Between (H.disk host.old) (H.disk host.new) (Back (H.disk host.old)) }
    ensures now { IsTrue H.tells → AllNow (H.disk host.new) (Back (H.disk host.old)) }
    ensures calm { OnOk result (IsTrue H.tells → IsCalm (H.disk host.new)) }
    ensures done { OnOk result (IsTrue H.tells → data_files (H.disk host.new).files ≡ recovered (H.disk host.old).files) }
    ensures wrote { IsTrue H.tells → (H.disk host.new).wrote ≤ (H.disk host.old).wrote + byte_count (intent_of (H.disk host.old).files) + 1 }
    ensures cause { HasCause (H.disk_faults host.old) (H.disk_faults host.new) result }
    ensures voice { H.voice_faults host.new ≡ H.voice_faults host.old }
{
    if fits_files(host, count, text)? {
        replay(host, count, text)
    } else {
        close(host)
    }
}

/// Carries out the patches of the body behind an open gate, or closes the gate over a body that is no intent.
fn finish_body<H: Host>(host: &mut H, count: u32, text: &[u8]) -> Result<(), DiskFault>
    requires sure { IsTrue H.tells → IsSure (H.disk host.old) }
    requires has { IsTrue H.tells → HasJournalText count text.now ((H.disk host.old).files 1) }
    ensures moments { IsTrue H.tells → Between (H.disk host.old) (H.disk host.new) (Back (H.disk host.old)) }
    ensures now { IsTrue H.tells → AllNow (H.disk host.new) (Back (H.disk host.old)) }
    ensures calm { OnOk result (IsTrue H.tells → IsCalm (H.disk host.new)) }
    ensures done { OnOk result (IsTrue H.tells → data_files (H.disk host.new).files ≡ recovered (H.disk host.old).files) }
    ensures wrote { IsTrue H.tells → (H.disk host.new).wrote ≤ (H.disk host.old).wrote + byte_count (intent_of (H.disk host.old).files) + 1 }
    ensures cause { HasCause (H.disk_faults host.old) (H.disk_faults host.new) result }
    ensures voice { H.voice_faults host.new ≡ H.voice_faults host.old }
{
    if is_intent(count, text) {
        finish_open(host, count, text)
    } else {
        close(host)
    }
}

/// Carries out the intent that was found, or closes a gate over none.
fn finish_recovery<H: Host>(host: &mut H, found: &Found) -> Result<(), DiskFault>
    requires sure { IsTrue H.tells → IsSure (H.disk host.old) }
    requires finds { IsTrue H.tells → JournalFinds found.now ((H.disk host.old).files 1) }
    ensures moments { IsTrue H.tells → Between (H.disk host.old) (H.disk host.new) (Back (H.disk host.old)) }
    ensures now { IsTrue H.tells → AllNow (H.disk host.new) (Back (H.disk host.old)) }
    ensures calm { OnOk result (IsTrue H.tells → IsCalm (H.disk host.new)) }
    ensures done { OnOk result (IsTrue H.tells → data_files (H.disk host.new).files ≡ recovered (H.disk host.old).files) }
    ensures wrote { IsTrue H.tells → (H.disk host.new).wrote ≤ (H.disk host.old).wrote + byte_count (intent_of (H.disk host.old).files) + 1 }
    ensures cause { HasCause (H.disk_faults host.old) (H.disk_faults host.new) result }
    ensures voice { H.voice_faults host.new ≡ H.voice_faults host.old }
{
    match found {
        Found::Closed => Ok(()),
        Found::NoBody => close(host),
        Found::Body { count, text } => finish_body(host, *count, text.as_slice()),
    }
}

/// Brings to an end what a crash left: carries out the intent that the journal holds, if it holds one, and
/// closes the gate. Of a journal whose gate isn't open it reads one byte. It takes memory for the patches
/// behind an open gate, and says nothing.
///
/// A recovery that was stopped, any number of times, leads to the same files. `DiskFault` comes only where
/// the host's count of disk faults rose. `OutOfMemory` hides no fault: it leaves the count as it was, as an
/// answer does.
pub fn recover<H: Host>(alloc: Global, host: &mut H) -> Result<(), JournalError>
    requires { IsTrue H.tells → IsSettled (H.disk host.old) }

    // An image since entry is one of those at entry, or it recovers to what the files as read recover to.
    ensures moments { IsTrue H.tells → Between (H.disk host.old) (H.disk host.new) (Back (H.disk host.old)) }
    ensures now { IsTrue H.tells → IsFirm (H.disk host.old) → AllNow (H.disk host.new) (Back (H.disk host.old)) }

    ensures calm { OnOk result (IsTrue H.tells → IsCalm (H.disk host.new)) }
    ensures done { OnOk result (IsTrue H.tells → data_files (H.disk host.new).files ≡ recovered (H.disk host.old).files) }
    ensures settled { IsTrue H.tells → IsSettled (H.disk host.new) }
    ensures same { IsTrue H.tells → Back (H.disk host.old) (as_read (H.disk host.new)) }
    ensures starved { IsErrOf result JournalError.OutOfMemory → IsTrue H.tells → as_read (H.disk host.new) ≡ as_read (H.disk host.old) }
    ensures firm { IsErrOf result JournalError.OutOfMemory → IsTrue H.tells → IsFirm (H.disk host.new) }

    // At most what the patches of the intent put, and the gate.
    ensures wrote { IsTrue H.tells → (H.disk host.new).wrote ≤ (H.disk host.old).wrote + byte_count (intent_of (H.disk host.old).files) + 1 }

    ensures later { H.disk_faults host.old ≤ H.disk_faults host.new }
    ensures cause { IsErrOf result JournalError.DiskFault → Rose (H.disk_faults host.old) (H.disk_faults host.new) }
    ensures kept { OnOk result (H.disk_faults host.new ≡ H.disk_faults host.old) }
    ensures starved_faults { IsErrOf result JournalError.OutOfMemory → H.disk_faults host.new ≡ H.disk_faults host.old }
    ensures voice { H.voice_faults host.new ≡ H.voice_faults host.old }
{
    settle(host)?;
    let found = read_journal(alloc, host)?;
    finish_recovery(host, &found)?;
    Ok(())
}
