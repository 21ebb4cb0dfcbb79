//! Messages of a sheet to a conference of a packet.
ghost use Rattle.std.specs.Prelude.{◌≡◌, ◌↔◌, ◌<◌, ℕ, true, false, Err, length, IfOk, OnOk, OnErr, IsErrOf, MatchOption, All};
ghost use Rattle.long_names.specs.Fits.{FitsWithLong};
ghost use Rattle.offline_writer.specs.Answer.{DraftsOrUnfit};
ghost use Rattle.offline_writer.specs.Drafts.{entry_envelope, entry_draft, entry_drafts};
ghost use Rattle.offline_writer.specs.Fitting.{IsClean, IsFirstUnfit};
ghost use Rattle.offline_writer.specs.Placing.{Adds, lists_conference};

use crate::drafting::{Envelope, header_of};
use crate::fault::{ComposeError, DraftError};
use crate::fitting::fits_qwk;
use crate::placing::add_drafts;
use crate::stored_text::stored_lines;
use import_sheet::{Sheet, Sheets};
use qwk_blocks::{QwkMessage, QwkMessages};
use qwk_control::Control;
use rep_packet::Rep;
use std::alloc::{AllocError, Global};

/// What a message to a conference takes from its entry.
fn envelope_of(alloc: Global, conference: u16, entry: &Sheet) -> Result<Envelope, AllocError>
    ensures { IfOk result (λ envelope. envelope ≡ entry_envelope conference entry.now) }
{
    Ok(Envelope {
        to: entry.to.copy(alloc)?,
        subject: entry.subject.copy(alloc)?,
        reference: 0,
        conference,
        private: entry.private,
    })
}

/// The draft of an entry, whether it fits QWK or not.
fn draft_of(
    alloc: Global,
    control: &Control,
    conference: u16,
    entry: &Sheet,
    now: u32,
) -> Result<QwkMessage, AllocError>
    ensures { IfOk result (λ draft. draft ≡ entry_draft control.now conference now entry.now) }
{
    let envelope = envelope_of(alloc, conference, entry)?;
    Ok(QwkMessage {
        header: header_of(alloc, control, envelope, now)?,
        lines: stored_lines(alloc, entry.body.as_slice())?,
    })
}

/// The drafts of a sheet's entries to a conference, from the packet's user. `Text` names the first entry,
/// from 1, whose draft can't be put into QWK. `now` is in seconds since 1970, in UTC.
pub fn draft_entries(
    alloc: Global,
    control: &Control,
    conference: u16,
    entries: &Sheets,
    now: u32,
) -> Result<QwkMessages, DraftError>
    requires { length entries.now < 4294967295 }
    ensures drafts { DraftsOrUnfit (entry_drafts control.now conference entries.now now) result }
    ensures writable { All (λ entry. IsClean (entry_envelope conference entry)) entries.now → IfOk result (λ drafts. All FitsWithLong drafts) }
{
    let mut drafts = QwkMessages::new(alloc);
    for entry in entries.as_slice() {
        let draft = draft_of(alloc, control, conference, entry, now)?;
        if !fits_qwk(&draft) {
            return Err(DraftError::Text(drafts.len() as u32 + 1));
        }
        drafts.add(draft)?;
    }
    Ok(drafts)
}

/// The conference of a number, or None where the packet has none. It takes no memory.
pub fn listed_conference(control: &Control, number: u32) -> Option<u16>
    ensures { MatchOption result (lists_conference control.now number ≡ false) (λ conference. (conference ≡ number) × (lists_conference control.now number ≡ true)) }
{
    for listed in control.conferences.as_slice() {
        if u32::from(listed.0) == number {
            return Some(listed.0);
        }
    }
    None
}

/// Adds the messages of a sheet, fewer than 4,294,967,295, to a conference at the end of a reply packet, from
/// the packet's user. `now` is in seconds since 1970, in UTC. For callers of the library; the program doesn't
/// call it.
///
/// `NoConference` comes exactly where the packet has no conference of the number, else `Text` where a message
/// can't be put into QWK, and `OutOfMemory` where there is no memory. After an error the packet is as it was.
pub fn compose(
    alloc: Global,
    control: &Control,
    conference: u16,
    sheets: &Sheets,
    rep: &mut Rep,
    now: u32,
) -> Result<(), ComposeError>
    requires { length sheets.now < 4294967295 }

    // The messages are added where all of them can be put into QWK.
    ensures ok { OnOk result (Adds (entry_drafts control.now conference sheets.now now) rep.old rep.new) }

    // NoConference comes exactly where the packet has no conference of that number.
    ensures no_conference { IsErrOf result ComposeError.NoConference ↔ (lists_conference control.now conference ≡ false) }

    // Text names the first that can't be put into QWK.
    ensures text { (number : ℕ) → result ≡ Err (ComposeError.Text number) → IsFirstUnfit (entry_drafts control.now conference sheets.now now) number }

    ensures unchanged { OnErr result (rep.new ≡ rep.old) }
{
    if listed_conference(control, u32::from(conference)).is_none() {
        return Err(ComposeError::NoConference);
    }
    let drafts = draft_entries(alloc, control, conference, sheets, now)?;
    Ok(add_drafts(alloc, rep, drafts)?)
}
