ghost use Rattle.std.specs.Prelude.{◌≡◌, ◌↔◌, [], ◌++◌, OnOk, IfOk, IsErrOf, codes};
ghost use Rattle.std.specs.List.{flat_map};
ghost use Rattle.std.specs.Option.{option_map};
ghost use Rattle.offline_reader.specs.Letter.{moment_text, heading, plain_letter, letter, message_in};
ghost use Rattle.offline_reader.specs.Printed.{printed, printed_line};

use crate::print::{add_number_line, add_printed, add_text_line};
use byte_lists::{Bytes, Lines};
use long_names::plain;
use qwk_blocks::{Header, QwkMessage, QwkMessages};
use std::alloc::{AllocError, Global};
use thiserror::Error;

/// Why a message isn't shown.
#[derive(Clone, Copy, Debug, PartialEq, Eq, Error)]
pub enum ShowError {
    /// The packet has no message in that place.
    #[error("the packet has no message in this place")]
    NoMessage,
    /// There is no memory for the text.
    #[error("out of memory")]
    OutOfMemory,
}

impl From<AllocError> for ShowError {
    ghost use Rattle.std.specs.Prelude.{◌≡◌};
    ghost use Rattle.offline_reader.specs.declared.letter.ShowError.TheVariants.{OutOfMemory};

    ghost from_gives = { λ _ e. e ≡ OutOfMemory };

    fn from(_error: AllocError) -> ShowError {
        ShowError::OutOfMemory
    }
}

/// Adds the line of the raw date and time fields.
fn add_moment(page: &mut Bytes, header: &Header) -> Result<(), AllocError>
    ensures { OnOk result (page.new ≡ page.old ++ printed_line (codes "Date: ") (moment_text header.now)) }
{
    page.add(b"Date: ")?;
    add_printed(page, &header.date)?;
    page.add(b" ")?;
    add_printed(page, &header.time)?;
    page.add(b"\n")
}

/// Adds the lines of a header.
#[tactic(auto, unfolding(crate::specs::Letter::heading))]
fn add_heading(page: &mut Bytes, header: &Header) -> Result<(), AllocError>
    ensures { OnOk result (page.new ≡ page.old ++ heading header.now) }
{
    add_text_line(page, b"From: ", header.from.as_slice())?;
    add_text_line(page, b"To: ", header.to.as_slice())?;
    add_text_line(page, b"Subject: ", header.subject.as_slice())?;
    add_moment(page, header)?;
    add_number_line(page, b"Conference: ", Some(u32::from(header.conference)))?;
    add_number_line(page, b"Number: ", header.number)?;
    add_number_line(page, b"Reference: ", header.reference)
}

/// Adds the lines of a text.
fn add_lines(page: &mut Bytes, lines: &Lines) -> Result<(), AllocError>
    ensures { OnOk result (page.new ≡ page.old ++ flat_map (λ line. printed_line [] (printed line)) lines.now) }
{
    for line in lines.as_slice() {
        add_text_line(page, b"", line.as_slice())?;
    }
    Ok(())
}

/// The text of a message as it is read.
fn plain_letter_of(alloc: Global, message: &QwkMessage) -> Result<Bytes, AllocError>
    ensures { IfOk result (λ text. text ≡ plain_letter message.now) }
{
    let mut page = Bytes::new(alloc);
    add_heading(&mut page, &message.header)?;
    page.add(b"\n")?;
    add_lines(&mut page, &message.lines)?;
    Ok(page)
}

/// The text of a message.
fn letter_of(alloc: Global, message: &QwkMessage) -> Result<Bytes, AllocError>
    ensures { IfOk result (λ text. text ≡ letter message.now) }
{
    let read = plain(alloc, message)?;
    plain_letter_of(alloc, &read)
}

/// The message in a place, which counts from 1: its header a line a field, an empty line and the lines of
/// its text. Long names and subjects are whole in the header, and the lines that give them aren't shown.
/// NoMessage comes exactly where the place is 0 or past the last message.
pub fn show_message(alloc: Global, messages: &QwkMessages, place: u32) -> Result<Bytes, ShowError>
    ensures text { IfOk result (λ text. option_map letter (message_in messages.now place) ≡ Some text) }
    ensures no_message { IsErrOf result ShowError.NoMessage ↔ (message_in messages.now place ≡ None) }
{
    if place == 0 {
        return Err(ShowError::NoMessage);
    }
    match messages.get(place as usize - 1) {
        None => Err(ShowError::NoMessage),
        Some(message) => Ok(letter_of(alloc, message)?),
    }
}
