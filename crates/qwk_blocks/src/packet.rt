ghost use Rattle.std.specs.Prelude.{◌≡◌, ◌≤◌, ◌<◌, ◌*◌, ◌^◌, ℕ, List, length, Err, IfOk, IfSome, All};
ghost use Rattle.text_fields.specs.byte_lists.Memory.{UnlessMemory};
ghost use Rattle.qwk_blocks.specs.Header.{BlockCountReads};
ghost use Rattle.qwk_blocks.specs.Packet.{MessageReads, PacketReads, FirstFault};
ghost use Rattle.qwk_blocks.specs.Reader.{IsEvent, MovesFront};
ghost use Rattle.qwk_blocks.specs.Written.{Writable};
ghost use Rattle.qwk_blocks.specs.Answer.{HasRead, ReadsOrFaults};
ghost use Rattle.qwk_blocks.specs.declared.message.QwkMessage.{QwkMessage};
ghost use Rattle.qwk_blocks.specs.declared.fault.QwkFault.{QwkFault};
ghost use Rattle.qwk_blocks.specs.declared.progress.Progress.{Progress};

use crate::event::Event;
use crate::fault::{QwkError, QwkFault};
use crate::header::{BLOCK, header_of};
use crate::message::{QwkMessage, QwkMessages};
use crate::reader::BlockReader;
use crate::text::lines_of;
use std::alloc::{AllocError, Global};

/// The message in its blocks, a header and its text.
fn message_of(alloc: Global, blocks: &[u8]) -> Result<QwkMessage, AllocError>
    requires { 128 ≤ length blocks.now }
    ensures { IfOk result (λ message. (count : ℕ) → BlockCountReads blocks.now count → length blocks.now ≡ 128 * count → MessageReads blocks.now message) }
{
    Ok(QwkMessage {
        header: header_of(alloc, &blocks[..BLOCK])?,
        lines: lines_of(alloc, &blocks[BLOCK..])?,
    })
}

/// Adds the message that ends with the stream, if its last block ends one, and answers where the next
/// message begins, or the one at hand.
fn add_ended(
    alloc: Global,
    messages: &mut QwkMessages,
    stream: &[u8],
    start: usize,
    event: Event,
) -> Result<usize, AllocError>
    requires { IsEvent start stream.now event }
    ensures reads { IfOk result (λ next. HasRead start stream.now messages.old → HasRead next stream.now messages.new) }
    ensures front { IfOk result (λ next. (old new : Progress) → old.front ≡ start → MovesFront old (length stream.now) (Some event) new → new.front ≡ next) }
{
    if event.ends_message() {
        messages.add(message_of(alloc, &stream[start..])?)?;
        return Ok(stream.len());
    }
    match event {
        Event::Notice => Ok(stream.len()),
        Event::Head { .. } | Event::Text { .. } => Ok(start),
    }
}

/// The same where the last block of the stream may not be full.
fn add_fed(
    alloc: Global,
    messages: &mut QwkMessages,
    stream: &[u8],
    start: usize,
    event: Option<Event>,
) -> Result<usize, AllocError>
    requires { IfSome event (IsEvent start stream.now) }
    ensures reads { IfOk result (λ next. HasRead start stream.now messages.old → HasRead next stream.now messages.new) }
    ensures front { IfOk result (λ next. (old new : Progress) → old.front ≡ start → MovesFront old (length stream.now) event new → new.front ≡ next) }
{
    match event {
        None => Ok(start),
        Some(event) => add_ended(alloc, messages, stream, start, event),
    }
}

/// The messages of a file, or its first fault.
fn messages_of(alloc: Global, bytes: &[u8]) -> Result<QwkMessages, QwkError>
    requires { length bytes.now < 2 ^ 31 }
    ensures { ReadsOrFaults bytes.now result }
{
    let mut reader = BlockReader::new();
    let mut messages = QwkMessages::new(alloc);
    let mut start = 0;
    let mut at = 0;
    while at < bytes.len() {
        let fed = reader.feed(&bytes[at..])?;
        at += fed.used;
        start = add_fed(alloc, &mut messages, &bytes[..at], start, fed.event)?;
    }
    reader.finish()?;
    Ok(messages)
}

/// The messages of the bytes of MESSAGES.DAT, by Lee's QWK Mail Packet File Layout of 1992, or the
/// first fault of these bytes, which are fewer than 2^31. The answer may be want of memory in place of
/// either.
pub fn read_messages(alloc: Global, bytes: &[u8]) -> Result<QwkMessages, QwkError>
    requires { length bytes.now < 2 ^ 31 }

    // Messages are answered exactly where the bytes read as these, unless memory runs out.
    ensures ok { IfOk result (λ messages. PacketReads bytes.now messages) }
    ensures only_ok { (messages : List QwkMessage) → PacketReads bytes.now messages → UnlessMemory QwkError.OutOfMemory result (Ok messages) }

    // So is a fault, exactly where it is the first one.
    ensures fault { (fault : QwkFault) → result ≡ Err (QwkError.Fault fault) → FirstFault bytes.now fault }
    ensures only_fault { (fault : QwkFault) → FirstFault bytes.now fault → UnlessMemory QwkError.OutOfMemory result (Err (QwkError.Fault fault)) }

    // What is read of at most a mebibyte can be written.
    ensures writable { length bytes.now ≤ 1048576 → IfOk result (λ messages. All Writable messages) }
{
    messages_of(alloc, bytes)
}
