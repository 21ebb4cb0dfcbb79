//! Messages in words: how many there are, and what each has. Its status, activity and tag stand together; then come its
//! date, time, To, From, subject and password, its number and reference, its conference and logical number, and its lines.
use byte_lists::{Bytes, Lines};
use qwk_blocks::{Header, QwkMessage};
use std::alloc::{AllocError, Global};
use test_cases::{Miss, quoted};

/// Adds bytes in quotes behind a mark.
pub fn add_quoted(
    alloc: Global,
    found: &mut String,
    mark: &str,
    bytes: &[u8],
) -> Result<(), AllocError> {
    found.push_str(mark)?;
    found.push_str(quoted(alloc, bytes)?.as_str())
}

/// Adds these lines to a message's.
pub fn add_lines(alloc: Global, lines: &mut Lines, more: &[Bytes]) -> Result<(), AllocError> {
    for line in more {
        lines.add(line.copy(alloc)?)?;
    }
    Ok(())
}

/// The date that a word is.
pub fn date_of(word: &Bytes) -> Result<[u8; 8], Miss> {
    word.as_slice().try_into().ok().ok_or(Miss::Words)
}

/// The time that a word is.
pub fn time_of(word: &Bytes) -> Result<[u8; 5], Miss> {
    word.as_slice().try_into().ok().ok_or(Miss::Words)
}

/// Adds the texts of a header.
fn add_texts(alloc: Global, found: &mut String, header: &Header) -> Result<(), AllocError> {
    let marks = [header.status, header.activity, header.tag];
    add_quoted(alloc, found, " ", &marks)?;
    add_quoted(alloc, found, " ", &header.date)?;
    add_quoted(alloc, found, " ", &header.time)?;
    add_quoted(alloc, found, " ", header.to.as_slice())?;
    add_quoted(alloc, found, " ", header.from.as_slice())?;
    add_quoted(alloc, found, " ", header.subject.as_slice())?;
    add_quoted(alloc, found, " ", header.password.as_slice())
}

/// Adds what a message has.
fn add_message(alloc: Global, found: &mut String, message: &QwkMessage) -> Result<(), AllocError> {
    let header = &message.header;
    add_texts(alloc, found, header)?;
    let numbers = format!(in alloc;
        " {:?} {:?} {} {}:",
        header.number, header.reference, header.conference, header.logical
    )?;
    found.push_str(numbers.as_str())?;
    for line in message.lines.as_slice() {
        add_quoted(alloc, found, " ", line.as_slice())?;
    }
    Ok(())
}

/// Messages in words.
pub fn described(alloc: Global, messages: &[QwkMessage]) -> Result<String, AllocError> {
    let mut found = format!(in alloc; "{} messages", messages.len())?;
    for message in messages {
        found.push_str(";")?;
        add_message(alloc, &mut found, message)?;
    }
    Ok(found)
}
