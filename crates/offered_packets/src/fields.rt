// What a packet shows of the fields of a message.
ghost use Rattle.std.specs.Prelude.{◌≡◌, ◌==◌, IfOk, if◌then◌else◌};
ghost use Rattle.offered_packets.specs.Shown.{shown_status as status_of, shown_text as text_of, shown_line as line_of, shown_lines as lines_of};

use byte_lists::{Bytes, Lines};
use jam_records::Message;
use long_names::{LineField, is_long, short_form};
use std::alloc::{AllocError, Global};
use text_fields::split_at_byte;

/// What ends a line of a packet.
const LINE_END: u8 = 0xE3;

/// The status byte: a space where the message is public, `+` where it is private and unread, `*` where it is
/// private and read.
pub(crate) fn shown_status(message: &Message) -> u8
    ensures { result ≡ status_of message.now }
{
    match (message.private, message.seen) {
        (false, _) => b' ',
        (true, false) => b'+',
        (true, true) => b'*',
    }
}

/// A name or a subject, whole where it goes as a line, and else as much of it as its field has room for.
pub(crate) fn shown_text(field: LineField, text: &[u8]) -> &[u8]
    ensures { result.now ≡ text_of field text.now }
{
    if is_long(text, field.most()) {
        text
    } else {
        short_form(text)
    }
}

/// The byte, or `?` for what would end a line of the packet.
fn shown_byte(b: u8) -> u8
    ensures { result ≡ if b == 0xE3 then 0x3F else b }
{
    if b == LINE_END { b'?' } else { b }
}

/// A line of a body, byte by byte.
fn mapped_line(alloc: Global, line: &[u8]) -> Result<Bytes, AllocError>
    ensures { IfOk result (λ shown. shown ≡ line_of line.now) }
{
    let bytes = line.iter().map(|b| shown_byte(*b)).collect(alloc)?;
    Ok(Bytes::from_vec(bytes))
}

/// A line of a body. One without a byte that would end it is copied at once.
#[tactic(auto, using(crate::proofs::FieldLaws::line_as_it_is))]
fn shown_line(alloc: Global, line: &[u8]) -> Result<Bytes, AllocError>
    ensures { IfOk result (λ shown. shown ≡ line_of line.now) }
{
    match split_at_byte(line, LINE_END) {
        None => Bytes::from_slice(alloc, line),
        Some(_) => mapped_line(alloc, line),
    }
}

/// The lines of a body, each of which ends with a carriage return.
pub(crate) fn shown_lines(alloc: Global, body: &[u8]) -> Result<Lines, AllocError>
    ensures { IfOk result (λ lines. lines ≡ lines_of body.now) }
{
    let mut lines = Lines::new(alloc);
    let mut left = body;
    while let Some((line, rest)) = split_at_byte(left, b'\r') {
        lines.add(shown_line(alloc, line)?)?;
        left = rest;
    }
    Ok(lines)
}
