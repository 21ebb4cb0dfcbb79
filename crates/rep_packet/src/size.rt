//! How many bytes are written, up to the greatest number.
ghost use Rattle.std.specs.Prelude.{◌≡◌, ◌≤◌, ◌-◌, ◌+◌, ◌^◌, decimal, length, min};
ghost use Rattle.qwk_blocks.specs.Text.{joined_lines};
ghost use Rattle.qwk_blocks.specs.Written.{padded, number_text, blocks_of, header_block, message_text};

use byte_lists::Lines;
use itoa::Buffer;
use qwk_blocks::{Header, QwkMessage};

/// A text that is padded to a width.
pub fn field_size(text: &[u8], width: u64) -> u64
    ensures { result ≡ length (padded width text.now) }
{
    width.max(text.len() as u64)
}

/// A number that is padded to a width.
fn number_size(number: u64, width: u64) -> u64
    ensures { result ≡ length (padded width (decimal number)) }
{
    let mut buffer = Buffer::new();
    field_size(buffer.format(number).as_bytes(), width)
}

/// A number, or nothing, that is padded to a width.
fn optional_size(number: Option<u32>, width: u64) -> u64
    ensures { result ≡ length (padded width (number_text number)) }
{
    match number {
        None => width,
        Some(n) => number_size(u64::from(n), width),
    }
}

/// The date and the time of a header.
fn moment_size(header: &Header) -> u64
    ensures { result ≡ length header.now.date + length header.now.time }
{
    let date = header.date.as_slice();
    let time = header.time.as_slice();
    (date.len() + time.len()) as u64
}

/// A header with its count of blocks.
fn header_size(header: &Header, count: u64) -> u64
    ensures { result ≡ min (length (header_block header.now count)) (2 ^ 64 - 1) }
{
    // The status, the activity, the two numbers of two bytes and the tag take seven.
    moment_size(header)
        .saturating_add(7)
        .saturating_add(optional_size(header.number, 7))
        .saturating_add(field_size(header.to.as_slice(), 25))
        .saturating_add(field_size(header.from.as_slice(), 25))
        .saturating_add(field_size(header.subject.as_slice(), 25))
        .saturating_add(field_size(header.password.as_slice(), 12))
        .saturating_add(optional_size(header.reference, 8))
        .saturating_add(number_size(count, 6))
}

/// The lines of a text, each with its end.
fn lines_size(lines: &Lines) -> u64
    ensures { result ≡ min (length (joined_lines lines.now)) (2 ^ 64 - 1) }
{
    let mut size = 0u64;
    for line in lines.as_slice() {
        size = size
            .saturating_add(line.as_slice().len() as u64)
            .saturating_add(1);
    }
    size
}

/// How many blocks a text takes.
fn text_blocks(size: u64) -> u64
    ensures blocks { result ≡ blocks_of size }
    ensures most { result ≤ 2 ^ 57 }
{
    1 + size.saturating_sub(1) / 128
}

/// A message.
pub fn message_size(message: &QwkMessage) -> u64
    ensures { result ≡ min (length (message_text message.now)) (2 ^ 64 - 1) }
{
    let blocks = text_blocks(lines_size(&message.lines));
    header_size(&message.header, 1 + blocks).saturating_add(blocks.saturating_mul(128))
}
