ghost use Rattle.std.specs.Prelude.{◌≡◌, IfOk, Some};
ghost use Rattle.std.specs.Str.{str_to_ascii_uppercase};
ghost use Rattle.board_layout.specs.Outlines.{board_outline};
ghost use Rattle.board_layout.specs.jam_layout.Outlines.{message_outline};
ghost use Rattle.jam_threads.specs.Children.{original};
ghost use Rattle.long_names.specs.Plain.{with_long as with_long_of, in_capitals as in_capitals_of};
ghost use Rattle.board_layout.specs.Lookups.{slots_in, message_at};
ghost use Rattle.offered_packets.specs.Shown.{conference_number as number_in, whole_header as header_of, shown_message, IsShort};

use crate::fields::{shown_lines, shown_status, shown_text};
use board_layout::StoredBoard;
use byte_lists::Bytes;
use jam_records::Message;
use long_names::{LineField, goes_as_is, with_long};
use qwk_blocks::{Header, QwkMessage};
use qwk_moments::{date_field, time_field};
use std::alloc::{AllocError, Global};

/// The number of the conference in a place, or 0 past the last.
fn conference_number(board: &StoredBoard, place: u8) -> u16
    ensures { result ≡ number_in board.now place }
{
    match board.ledger().setup.conference(place) {
        Some(conference) => conference.number,
        None => 0,
    }
}

/// The header that shows a message with whole names and subject. It stands in a conference under a number, answers an
/// original, and has a place in the packet, the logical number.
fn whole_header(
    alloc: Global,
    conference: u16,
    number: u32,
    original: u32,
    logical: u16,
    message: &Message,
) -> Result<Header, AllocError>
    ensures { IfOk result (λ header. header ≡ header_of conference number original logical message.now) }
{
    Ok(Header {
        status: shown_status(message),
        number: Some(number),
        date: date_field(message.written),
        time: time_field(message.written),
        to: Bytes::from_slice(alloc, shown_text(LineField::To, message.to.as_slice()))?,
        from: Bytes::from_slice(alloc, shown_text(LineField::From, message.from.as_slice()))?,
        subject: Bytes::from_slice(
            alloc,
            shown_text(LineField::Subject, message.subject.as_slice()),
        )?,
        password: Bytes::new(alloc),
        reference: Some(original),
        activity: 0xE1,
        conference,
        logical,
        tag: b' ',
    })
}

/// A name in ASCII capitals.
fn in_capitals(alloc: Global, name: &Bytes) -> Result<Bytes, AllocError>
    ensures { IfOk result (λ shown. shown ≡ str_to_ascii_uppercase name.now) }
{
    let mut shown = name.as_slice().to_vec(alloc)?;
    shown.make_ascii_uppercase();
    Ok(Bytes::from_vec(shown))
}

/// A message with its long names and subject as lines. One that has none isn't copied.
fn with_lines(alloc: Global, whole: QwkMessage) -> Result<QwkMessage, AllocError>
    ensures { IfOk result (λ message. message ≡ with_long_of whole) }
{
    if goes_as_is(&whole) {
        Ok(whole)
    } else {
        with_long(alloc, &whole)
    }
}

/// A message with its long names and subject as lines, and its To and From in ASCII capitals.
fn as_it_goes(alloc: Global, whole: QwkMessage) -> Result<QwkMessage, AllocError>
    ensures { IfOk result (λ message. message ≡ in_capitals_of (with_long_of whole)) }
{
    let mut message = with_lines(alloc, whole)?;
    message.header.to = in_capitals(alloc, &message.header.to)?;
    message.header.from = in_capitals(alloc, &message.header.from)?;
    Ok(message)
}

/// The number of the message that the message of a number in a place answers, or 0 where it answers none that is there.
fn original_in(board: &StoredBoard, place: u8, number: u32) -> u32
    ensures { result ≡ original (slots_in board.now place) number }
{
    match board.base_at(place) {
        Some(base) => base.reply_to(number),
        None => 0,
    }
}

/// How a packet shows a message, which stands in a board under a number in the place of its conference, under a
/// logical number. The board may hold the outline of the message alone: nothing is asked of it but what an outline
/// tells, and the body is that of the message at hand. It can be written, and has at most 16,551 bytes of text.
///
/// The error comes where there is no memory.
pub fn shown(
    alloc: Global,
    board: &StoredBoard,
    place: u8,
    number: u32,
    logical: u16,
    message: &Message,
) -> Result<QwkMessage, AllocError>
    requires { message_at (board_outline board.now) place number ≡ Some (message_outline message.now) }
    ensures shown { IfOk result (λ shown. shown ≡ shown_message board.now place number logical message.now) }
    ensures short { IfOk result IsShort }
{
    // The board is valid.
    let _ledger = board.ledger();
    let conference = conference_number(board, place);
    let original = original_in(board, place, number);
    let header = whole_header(alloc, conference, number, original, logical, message)?;
    let lines = shown_lines(alloc, message.body.as_slice())?;
    as_it_goes(alloc, QwkMessage { header, lines })
}
