ghost use Rattle.std.specs.Prelude.{◌≡◌, ◌≤◌, ◌<◌, ◌^◌, ◌*◌, ◌+◌, ◌++◌, length, replicate, OnOk, IfOk, All};
ghost use Rattle.qwk_blocks.specs.Text.{joined_lines};
ghost use Rattle.qwk_blocks.specs.Written.{padded, number_text, low_first, header_block, message_text, spelling, Writable};

use crate::header::BLOCK;
use crate::message::{Header, QwkMessage, QwkMessages};
use crate::text::{LINE_END, text_len};
use byteorder::{ByteOrder, LittleEndian};
use itoa::Buffer;
use std::alloc::{AllocError, Global};
use text_fields::{Bytes, Lines};

/// A block of spaces.
const SPACES: [u8; BLOCK] = [b' '; BLOCK];

/// Adds spaces.
fn add_spaces(out: &mut Bytes, count: usize) -> Result<(), AllocError>
    ensures { OnOk result (out.new ≡ out.old ++ replicate count 32) }
{
    let mut left = count;
    while left > BLOCK {
        out.add(&SPACES)?;
        left -= BLOCK;
    }
    out.add(&SPACES[..left])
}

/// Adds a text, and spaces up to a width.
fn add_padded(out: &mut Bytes, text: &[u8], width: usize) -> Result<(), AllocError>
    ensures { OnOk result (out.new ≡ out.old ++ padded width text.now) }
{
    out.add(text)?;
    add_spaces(out, width.saturating_sub(text.len()))
}

/// Adds a number, or nothing, and spaces up to a width.
fn add_number(out: &mut Bytes, number: Option<u32>, width: usize) -> Result<(), AllocError>
    ensures { OnOk result (out.new ≡ out.old ++ padded width (number_text number)) }
{
    match number {
        None => add_padded(out, b"", width),
        Some(n) => {
            let mut buffer = Buffer::new();
            add_padded(out, buffer.format(n).as_bytes(), width)
        }
    }
}

/// Adds two bytes, the low one first.
fn add_word(out: &mut Bytes, n: u16) -> Result<(), AllocError>
    ensures { OnOk result (out.new ≡ out.old ++ low_first n) }
{
    let mut bytes = [0u8; 2];
    LittleEndian::write_u16(&mut bytes, n);
    out.add(&bytes)
}

/// Adds a header block.
#[tactic(auto, unfolding(crate::specs::Written::header_block))]
fn add_header(out: &mut Bytes, header: &Header, count: u32) -> Result<(), AllocError>
    ensures { OnOk result (out.new ≡ out.old ++ header_block header.now count) }
{
    out.add(&[header.status])?;
    add_number(out, header.number, 7)?;
    out.add(&header.date)?;
    out.add(&header.time)?;
    add_padded(out, header.to.as_slice(), 25)?;
    add_padded(out, header.from.as_slice(), 25)?;
    add_padded(out, header.subject.as_slice(), 25)?;
    add_padded(out, header.password.as_slice(), 12)?;
    add_number(out, header.reference, 8)?;
    add_number(out, Some(count), 6)?;
    out.add(&[header.activity])?;
    add_word(out, header.conference)?;
    add_word(out, header.logical)?;
    out.add(&[header.tag])
}

/// Adds lines, each with its end.
fn add_lines(out: &mut Bytes, lines: &Lines) -> Result<(), AllocError>
    ensures { OnOk result (out.new ≡ out.old ++ joined_lines lines.now) }
{
    for line in lines.as_slice() {
        out.add(line.as_slice())?;
        out.add(&[LINE_END])?;
    }
    Ok(())
}

/// Adds a message.
#[tactic(auto, unfolding(crate::specs::Written::message_text))]
fn add_message(out: &mut Bytes, message: &QwkMessage) -> Result<(), AllocError>
    requires { Writable message.now }
    ensures { OnOk result (out.new ≡ out.old ++ message_text message.now) }
{
    let len = text_len(&message.lines);
    let blocks = ((len + 127) / BLOCK).max(1);
    add_header(out, &message.header, 1 + blocks as u32)?;
    add_lines(out, &message.lines)?;
    add_spaces(out, BLOCK * blocks - len)
}

/// The written form of messages as MESSAGES.DAT, by Lee's QWK Mail Packet File Layout of 1992. The notice, of
/// at most 128 bytes, comes first, in a block of its own. Then each message comes, its number fields and texts
/// padded with spaces. Each message can be written, as `QwkMessage::writable` says, and the whole has fewer
/// than 2^31 bytes.
///
/// The error comes where there is no memory.
pub fn write_messages(
    alloc: Global,
    notice: &[u8],
    messages: &QwkMessages,
) -> Result<Bytes, AllocError>
    requires notice { length notice.now ≤ 128 }
    requires messages { All Writable messages.now }
    requires size { length (spelling notice.now messages.now) < 2 ^ 31 }
    ensures { IfOk result (λ bytes. bytes ≡ spelling notice.now messages.now) }
{
    let mut out = Bytes::new(alloc);
    add_padded(&mut out, notice, BLOCK)?;
    for message in messages.as_slice() {
        add_message(&mut out, message)?;
    }
    Ok(out)
}
