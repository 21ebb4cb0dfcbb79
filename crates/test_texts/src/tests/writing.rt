//! Replies and composed messages from worked examples. What is found of a message are its status, activity and tag, its
//! date and time, To, From and the subject, its number and reference, its conference and logical number, and how many
//! lines it has.
mod replies;
mod sheets;

use super::packets;
use byte_lists::Bytes;
use qwk_blocks::{QwkMessage, QwkMessages};
use qwk_control::Control;
use rep_packet::Rep;
use std::alloc::{AllocError, Global};

/// When the messages of these tests are written: 9 September 2001, 01:46:40.
const NOW: u32 = 1_000_000_000;

/// Says what the packet of a user says, with the conferences 0 and 1.
fn fill_control(alloc: Global, control: &mut Control, user: &[u8]) -> Result<(), AllocError> {
    packets::name(control, b"", user)?;
    control.count = 1;
    let conferences = &mut control.conferences;
    conferences.add((0, Bytes::from_slice(alloc, b"GENERAL")?))?;
    conferences.add((1, Bytes::from_slice(alloc, b"NETMAIL")?))
}

/// A reply packet of no board and without messages.
fn no_replies(alloc: Global) -> Rep {
    Rep {
        bbsid: Bytes::new(alloc),
        messages: QwkMessages::new(alloc),
    }
}

/// The texts of a message.
fn texts_of(alloc: Global, message: &QwkMessage) -> Result<String, AllocError> {
    let header = &message.header;
    format!(in alloc;
        "\"{}\" {} {} \"{}\" \"{}\" \"{}\"",
        [header.status, header.activity, header.tag].escape_ascii(),
        header.date.escape_ascii(),
        header.time.escape_ascii(),
        header.to.as_slice().escape_ascii(),
        header.from.as_slice().escape_ascii(),
        header.subject.as_slice().escape_ascii()
    )
}

/// A message in words.
fn described(alloc: Global, message: &QwkMessage) -> Result<String, AllocError> {
    let texts = texts_of(alloc, message)?;
    let header = &message.header;
    let (number, reference) = (header.number, header.reference);
    let (conference, logical) = (header.conference, header.logical);
    let lines = message.lines.len();
    format!(in alloc; "{texts} {number:?} {reference:?} {conference} {logical} {lines}")
}

/// The messages of a reply packet, in words.
fn all_described(alloc: Global, rep: &Rep) -> Result<String, AllocError> {
    let mut found = format!(in alloc; "{} messages", rep.messages.len())?;
    for message in rep.messages.as_slice() {
        found.push_str("; ")?;
        found.push_str(described(alloc, message)?.as_str())?;
    }
    Ok(found)
}
