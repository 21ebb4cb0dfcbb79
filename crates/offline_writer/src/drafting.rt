//! The header of a draft.
ghost use Rattle.std.specs.Prelude.{◌≡◌, ◌<◌, ◌^◌, IfOk, take};
ghost use Rattle.offline_writer.specs.Drafts.{sender as sender_of, draft_header};

use byte_lists::Bytes;
use qwk_blocks::Header;
use qwk_control::Control;
use qwk_moments::{date_field, time_field};
use std::alloc::{AllocError, Global};
use text_fields::{Blank, trimmed_end};

/// What a draft takes from the message that it answers, or from its entry.
#[derive(Debug, Drop)]
pub struct Envelope {
    /// To.
    pub to: Bytes,
    /// The subject.
    pub subject: Bytes,
    /// The number of the message that it answers, or 0.
    pub reference: u32,
    /// The conference that it goes to.
    pub conference: u16,
    /// Whether it is private.
    pub private: bool,
}

/// At most the first 25 bytes of a name, the room of From.
fn front(name: &[u8]) -> &[u8]
    ensures { result.now ≡ take 25 name.now }
{
    match name.get(..25) {
        Some(front) => front,
        None => name,
    }
}

/// A user's name as From.
#[tactic(auto, unfolding(crate::specs::Drafts::sender))]
fn sender(user: &[u8]) -> &[u8]
    ensures { result.now ≡ sender_of user.now }
{
    trimmed_end(front(user), Blank::SpacesAndNuls)
}

/// The header of a draft that the packet's user writes at a moment. It has no place in a packet yet.
#[tactic(auto, unfolding(crate::specs::Drafts::draft_header))]
pub(crate) fn header_of(
    alloc: Global,
    control: &Control,
    envelope: Envelope,
    now: u32,
) -> Result<Header, AllocError>
    ensures header { IfOk result (λ header. header ≡ draft_header control.now envelope now) }
    ensures conference { IfOk result (λ header. header.conference < 2 ^ 16) }
{
    let from = Bytes::from_slice(alloc, sender(control.user.as_slice()))?;
    Ok(Header {
        status: if envelope.private { b'+' } else { b' ' },
        number: Some(u32::from(envelope.conference)),
        date: date_field(now),
        time: time_field(now),
        to: envelope.to,
        from,
        subject: envelope.subject,
        password: Bytes::new(alloc),
        reference: Some(envelope.reference),
        activity: 0xE1,
        conference: envelope.conference,
        logical: 0,
        tag: b' ',
    })
}
