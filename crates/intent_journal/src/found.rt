// What a recovery finds in the journal. It reads one byte, and more only behind an open gate.
ghost use Rattle.std.specs.Prelude.{◌≡◌, [], ◌∷◌, ◌+◌, ◌≤◌, length, take, drop, nat_le, true, false, Some, IfOk, OnOk, IsErrOf, IsTrue, MatchOption};
ghost use Rattle.door_outside.specs.Cause.{HasCause, Rose};
ghost use Rattle.door_outside.specs.Disk.{Unchanged};
ghost use Rattle.intent_journal.specs.Found.{JournalFinds, HasHead, HasWholeHead};
ghost use Rattle.intent_journal.specs.Journal.{IsClosed, begins_body};

use crate::gate::is_open;
use crate::reading::{BodyHead, JOURNAL_HEADER, body_head};
use crate::recovery::JournalError;
use door_outside::{DiskFault, FileId, Host};
use record_numbers::Bytes;
use std::alloc::Global;

/// What stands in the journal.
#[derive(Drop)]
pub(crate) enum Found {
    /// No open gate.
    Closed,
    /// An open gate, and not all the bytes of a body behind it.
    NoBody,
    /// An open gate and a body.
    Body {
        /// How many patches it says that it has.
        count: u32,
        /// Their text.
        text: Bytes,
    },
}

/// Fills the buffer from a place of the journal on, and answers how many bytes the journal gave. No other byte
/// of the buffer is one of the journal's.
fn read_given<H: Host>(host: &mut H, at: u32, buf: &mut [u8]) -> Result<usize, DiskFault>
    ensures bound { IfOk result (λ count. count ≤ length buf.old) }
    ensures given { IfOk result (λ count. IsTrue H.tells → take count buf.new ≡ take (length buf.old) (drop at ((H.disk host.old).files 1))) }
    ensures unchanged { IsTrue H.tells → Unchanged (H.disk host.old) (H.disk host.new) }
    ensures cause { HasCause (H.disk_faults host.old) (H.disk_faults host.new) result }
    ensures voice { H.voice_faults host.new ≡ H.voice_faults host.old }
{
    let count = host.read_at(FileId::journal(), at, buf)?;
    Ok(count)
}

/// Whether the gate is open, by the first byte.
fn reads_open<H: Host>(host: &mut H) -> Result<bool, DiskFault>
    ensures yes { IfOk result (λ yes. IsTrue H.tells → yes ≡ true → take 1 ((H.disk host.old).files 1) ≡ 79 ∷ []) }
    ensures no { IfOk result (λ yes. IsTrue H.tells → yes ≡ false → IsClosed ((H.disk host.old).files 1)) }
    ensures unchanged { IsTrue H.tells → Unchanged (H.disk host.old) (H.disk host.new) }
    ensures cause { HasCause (H.disk_faults host.old) (H.disk_faults host.new) result }
    ensures voice { H.voice_faults host.new ≡ H.voice_faults host.old }
{
    let mut gate = [0u8; 1];
    let count = read_given(host, 0, &mut gate)?;
    Ok(is_open(&gate[..count]))
}

/// What stands between the gate and the patches, where the letters do.
fn read_head<H: Host>(host: &mut H) -> Result<Option<BodyHead>, DiskFault>
    ensures value { IfOk result (λ head. IsTrue H.tells → MatchOption head (begins_body ((H.disk host.old).files 1) ≡ false) (λ h. HasHead h.count h.len ((H.disk host.old).files 1))) }
    ensures unchanged { IsTrue H.tells → Unchanged (H.disk host.old) (H.disk host.new) }
    ensures cause { HasCause (H.disk_faults host.old) (H.disk_faults host.new) result }
    ensures voice { H.voice_faults host.new ≡ H.voice_faults host.old }
{
    let mut header = [0u8; JOURNAL_HEADER];
    let count = read_given(host, 0, &mut header)?;
    Ok(body_head(&header[..count]))
}

/// Whether the journal has so many bytes behind its header. Most journals are asked for the last of them, so
/// that one of 2^31 bytes and more is read too.
fn has_behind<H: Host>(host: &mut H, len: u32) -> Result<bool, DiskFault>
    ensures value { IfOk result (λ yes. IsTrue H.tells → yes ≡ nat_le (13 + len) (length ((H.disk host.old).files 1))) }
    ensures unchanged { IsTrue H.tells → Unchanged (H.disk host.old) (H.disk host.new) }
    ensures cause { HasCause (H.disk_faults host.old) (H.disk_faults host.new) result }
    ensures voice { H.voice_faults host.new ≡ H.voice_faults host.old }
{
    if len < 0x8000_0000 {
        let mut last = [0u8; 1];
        Ok(host.read_at(FileId::journal(), 12 + len, &mut last)? == 1)
    } else {
        Ok(host.length(FileId::journal())? >= len)
    }
}

/// What stands before the patches, where all bytes of the body stand in the journal.
fn read_whole_head<H: Host>(host: &mut H) -> Result<Option<BodyHead>, DiskFault>
    ensures value { IfOk result (λ head. IsTrue H.tells → MatchOption head (begins_body ((H.disk host.old).files 1) ≡ false) (λ h. HasWholeHead h.count h.len ((H.disk host.old).files 1))) }
    ensures unchanged { IsTrue H.tells → Unchanged (H.disk host.old) (H.disk host.new) }
    ensures cause { HasCause (H.disk_faults host.old) (H.disk_faults host.new) result }
    ensures voice { H.voice_faults host.new ≡ H.voice_faults host.old }
{
    let Some(head) = read_head(host)? else {
        return Ok(None);
    };
    if has_behind(host, head.len)? {
        Ok(Some(head))
    } else {
        Ok(None)
    }
}

/// So many bytes behind the header, or as many as there are.
fn read_text<H: Host>(alloc: Global, host: &mut H, len: u32) -> Result<Bytes, JournalError>
    ensures value { IfOk result (λ text. IsTrue H.tells → text ≡ take len (drop 13 ((H.disk host.old).files 1))) }
    ensures unchanged { IsTrue H.tells → Unchanged (H.disk host.old) (H.disk host.new) }
    ensures later { H.disk_faults host.old ≤ H.disk_faults host.new }
    ensures cause { IsErrOf result JournalError.DiskFault → Rose (H.disk_faults host.old) (H.disk_faults host.new) }
    ensures kept { OnOk result (H.disk_faults host.new ≡ H.disk_faults host.old) }
    ensures starved_faults { IsErrOf result JournalError.OutOfMemory → H.disk_faults host.new ≡ H.disk_faults host.old }
    ensures voice { H.voice_faults host.new ≡ H.voice_faults host.old }
{
    let mut text = vec![in alloc; 0u8; len as usize]?;
    let count = read_given(host, JOURNAL_HEADER as u32, &mut text)?;
    text.truncate(count);
    Ok(Bytes::from_vec(text))
}

/// The body behind an open gate.
fn read_body<H: Host>(alloc: Global, host: &mut H) -> Result<Found, JournalError>
    requires { IsTrue H.tells → take 1 ((H.disk host.old).files 1) ≡ 79 ∷ [] }
    ensures finds { IfOk result (λ found. IsTrue H.tells → JournalFinds found ((H.disk host.old).files 1)) }
    ensures unchanged { IsTrue H.tells → Unchanged (H.disk host.old) (H.disk host.new) }
    ensures later { H.disk_faults host.old ≤ H.disk_faults host.new }
    ensures cause { IsErrOf result JournalError.DiskFault → Rose (H.disk_faults host.old) (H.disk_faults host.new) }
    ensures kept { OnOk result (H.disk_faults host.new ≡ H.disk_faults host.old) }
    ensures starved_faults { IsErrOf result JournalError.OutOfMemory → H.disk_faults host.new ≡ H.disk_faults host.old }
    ensures voice { H.voice_faults host.new ≡ H.voice_faults host.old }
{
    let Some(head) = read_whole_head(host)? else {
        return Ok(Found::NoBody);
    };
    let text = read_text(alloc, host, head.len)?;
    Ok(Found::Body {
        count: head.count,
        text,
    })
}

/// What stands in the journal.
pub(crate) fn read_journal<H: Host>(alloc: Global, host: &mut H) -> Result<Found, JournalError>
    ensures finds { IfOk result (λ found. IsTrue H.tells → JournalFinds found ((H.disk host.old).files 1)) }
    ensures unchanged { IsTrue H.tells → Unchanged (H.disk host.old) (H.disk host.new) }
    ensures later { H.disk_faults host.old ≤ H.disk_faults host.new }
    ensures cause { IsErrOf result JournalError.DiskFault → Rose (H.disk_faults host.old) (H.disk_faults host.new) }
    ensures kept { OnOk result (H.disk_faults host.new ≡ H.disk_faults host.old) }
    ensures starved_faults { IsErrOf result JournalError.OutOfMemory → H.disk_faults host.new ≡ H.disk_faults host.old }
    ensures voice { H.voice_faults host.new ≡ H.voice_faults host.old }
{
    if reads_open(host)? {
        read_body(alloc, host)
    } else {
        Ok(Found::Closed)
    }
}
