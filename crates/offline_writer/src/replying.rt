//! Replies to messages of a packet.
ghost use Rattle.std.specs.Prelude.{◌≡◌, ◌↔◌, ℕ, ◌<◌, ◌^◌, [], ◌∷◌, Some, None, Err, IfOk, OnOk, OnErr, IsErrOf, All};
ghost use Rattle.std.specs.Option.{option_copied};
ghost use Rattle.offline_reader.specs.Letter.{message_in};
ghost use Rattle.qwk_blocks.specs.Status.{private_status};
ghost use Rattle.long_names.specs.Fits.{FitsWithLong};
ghost use Rattle.qwk_blocks.specs.declared.message.QwkMessage.{QwkMessage};
ghost use Rattle.offline_writer.specs.Answer.{DraftsOrUnfit};
ghost use Rattle.offline_writer.specs.Drafts.{reply_envelope, reply_draft};
ghost use Rattle.offline_writer.specs.Fitting.{IsClean, IsFirstUnfit};
ghost use Rattle.offline_writer.specs.Placing.{Adds};

use crate::drafting::{Envelope, header_of};
use crate::fault::{DraftError, ReplyError};
use crate::fitting::fits_qwk;
use crate::placing::add_drafts;
use long_names::plain;
use qwk_blocks::{Header, QwkMessage, QwkMessages};
use qwk_control::Control;
use rep_packet::Rep;
use std::alloc::{AllocError, Global};
use text_fields::lines_of;

/// Whether a status is a private message's.
fn is_private(status: u8) -> bool
    ensures { result ≡ private_status status }
{
    matches!(status, b'+' | b'*')
}

/// What a reply takes from the header of the message that it answers.
fn envelope_of(alloc: Global, answered: &Header) -> Result<Envelope, AllocError>
    ensures { IfOk result (λ envelope. envelope ≡ reply_envelope answered.now) }
{
    Ok(Envelope {
        to: answered.from.copy(alloc)?,
        subject: answered.subject.copy(alloc)?,
        reference: answered.number.unwrap_or(0),
        conference: answered.conference,
        private: is_private(answered.status),
    })
}

/// The draft of a reply, whether it fits QWK or not.
fn draft_of(
    alloc: Global,
    control: &Control,
    answered: &QwkMessage,
    text: &[u8],
    now: u32,
) -> Result<QwkMessage, AllocError>
    ensures draft { IfOk result (λ draft. draft ≡ reply_draft control.now answered.now text.now now) }
    ensures conference { IfOk result (λ draft. draft.header.conference < 2 ^ 16) }
{
    let read = plain(alloc, answered)?;
    let lines = lines_of(alloc, text)?;
    let envelope = envelope_of(alloc, &read.header)?;
    let header = header_of(alloc, control, envelope, now)?;
    Ok(QwkMessage { header, lines })
}

/// The draft of a reply to a message as it is read, from the packet's user and with the lines of a text. `Text(1)` comes
/// where it can't be put into QWK. `now` is in seconds since 1970, in UTC.
pub fn draft_reply(
    alloc: Global,
    control: &Control,
    answered: &QwkMessage,
    text: &[u8],
    now: u32,
) -> Result<QwkMessages, DraftError>
    ensures drafts { DraftsOrUnfit (reply_draft control.now answered.now text.now now ∷ []) result }
    ensures writable { IsClean (reply_envelope answered.now.header) → IfOk result (λ drafts. All FitsWithLong drafts) }
{
    let draft = draft_of(alloc, control, answered, text, now)?;
    if !fits_qwk(&draft) {
        return Err(DraftError::Text(1));
    }
    let mut drafts = QwkMessages::new(alloc);
    drafts.add(draft)?;
    Ok(drafts)
}

/// The message in a place, which counts from 1, or None where the packet has none there.
pub fn message_at(messages: &QwkMessages, place: u32) -> Option<&QwkMessage>
    ensures { option_copied result ≡ message_in messages.now place }
{
    if place == 0 {
        return None;
    }
    messages.get(place as usize - 1)
}

/// Adds the reply to the message in a place, which counts from 1, at the end of a reply packet: from the
/// packet's user, with the lines of a text. `now` is in seconds since 1970, in UTC. For callers of the
/// library; the program doesn't call it.
///
/// `NoMessage` comes exactly where the place is 0 or past the last message, else `Text(1)` where the reply
/// can't be put into QWK, and `OutOfMemory` where there is no memory. After an error the packet is as it was.
pub fn reply_to(
    alloc: Global,
    control: &Control,
    messages: &QwkMessages,
    place: u32,
    text: &[u8],
    rep: &mut Rep,
    now: u32,
) -> Result<(), ReplyError>
    // The reply is added where there is such a message and the reply can be put into QWK.
    ensures ok { OnOk result ((answered : QwkMessage) × (message_in messages.now place ≡ Some answered) × Adds (reply_draft control.now answered text.now now ∷ []) rep.old rep.new) }

    // NoMessage comes exactly where the place is 0 or past the last message.
    ensures no_message { IsErrOf result ReplyError.NoMessage ↔ (message_in messages.now place ≡ None) }

    // Text comes where the reply can't be put into QWK, and is 1.
    ensures text { (number : ℕ) → result ≡ Err (ReplyError.Text number) → (answered : QwkMessage) × (message_in messages.now place ≡ Some answered) × IsFirstUnfit (reply_draft control.now answered text.now now ∷ []) number }

    ensures unchanged { OnErr result (rep.new ≡ rep.old) }
{
    let Some(answered) = message_at(messages, place) else {
        return Err(ReplyError::NoMessage);
    };
    let drafts = draft_reply(alloc, control, answered, text, now)?;
    Ok(add_drafts(alloc, rep, drafts)?)
}
