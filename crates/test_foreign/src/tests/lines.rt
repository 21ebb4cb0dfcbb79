//! What is found, as texts.
use jam_adopt::{Foreign, ForeignError, Found, FoundVerdict};
use jam_records::Message;
use std::alloc::{AllocError, Global};
use test_cases::quoted;

/// The texts of a message, each in quotes and before a space.
fn texts_of(alloc: Global, message: &Message) -> Result<String, AllocError> {
    let mut line = String::new(alloc);
    for text in [
        &message.from,
        &message.to,
        &message.subject,
        &message.msgid,
        &message.replyid,
        &message.origin,
        &message.destination,
        &message.body,
    ] {
        line.push_str(quoted(alloc, text.as_slice())?.as_str())?;
        line.push_str(" ")?;
    }
    Ok(line)
}

/// A message: from whom and to whom it is, about what, its ids, its addresses, its body, when it was written, received
/// and processed, and whether it is local, private, seen and deleted.
fn line_of(alloc: Global, message: &Message) -> Result<String, AllocError> {
    let texts = texts_of(alloc, message)?;
    let (written, received) = (message.written, message.received);
    let (local, private) = (message.local, message.private);
    let (seen, deleted) = (message.seen, message.deleted);
    let processed = message.processed;
    format!(in alloc; "{texts}{written} {received} {processed} {local} {private} {seen} {deleted}")
}

/// The place of a record, and the rule that refuses it, or the id of its message and the length of the body.
fn found_line(alloc: Global, found: &Found) -> Result<String, AllocError> {
    let place = found.place;
    match &found.verdict {
        FoundVerdict::Refused(rule) => format!(in alloc; "{place} {rule:?}"),
        FoundVerdict::Taken(message) => {
            let id = quoted(alloc, message.msgid.as_slice())?;
            let len = message.body.as_slice().len();
            format!(in alloc; "{place} {id} {len}")
        }
    }
}

/// All that is found, in order.
fn found_lines(alloc: Global, found: &Foreign) -> Result<String, AllocError> {
    let mut line = String::new(alloc);
    for one in found.as_slice() {
        if !line.is_empty() {
            line.push_str(", ")?;
        }
        line.push_str(found_line(alloc, one)?.as_str())?;
    }
    if line.is_empty() {
        line.push_str("none")?;
    }
    Ok(line)
}

/// All that is found, by a copy of it, or why nothing is read.
pub fn all_found(
    alloc: Global,
    read: &Result<Foreign, ForeignError>,
) -> Result<String, AllocError> {
    match read {
        Ok(found) => found_lines(alloc, &found.copy(alloc)?),
        Err(error) => format!(in alloc; "{error:?}"),
    }
}

/// The message of the first record that is found, by a copy of it.
pub fn first_message(
    alloc: Global,
    read: &Result<Foreign, ForeignError>,
) -> Result<String, AllocError> {
    let copy = match read {
        Err(error) => return format!(in alloc; "{error:?}"),
        Ok(found) => found.copy(alloc)?,
    };
    match copy.get(0) {
        Some(
            Found {
                verdict: FoundVerdict::Taken(message),
                ..
            },
        ) => line_of(alloc, message),
        _ => String::from_str(alloc, "none"),
    }
}
