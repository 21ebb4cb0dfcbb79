//! Drafts at the end of a reply packet.
ghost use Rattle.std.specs.Prelude.{◌≡◌, ◌+◌, ◌++◌, min, IfOk, OnOk, OnErr};
ghost use Rattle.offline_writer.specs.Placing.{with_logical as numbered_at, placed as placed_at, placed_from, with_drafts};

use byte_lists::List;
use long_names::with_long;
use qwk_blocks::{QwkMessage, QwkMessages};
use rep_packet::Rep;
use std::alloc::{AllocError, Global};
use std::mem;

/// The logical number behind so many messages.
fn next_number(before: usize) -> u16
    ensures { result ≡ min (before + 1) 65535 }
{
    (before.min(65_534) + 1) as u16
}

/// A message with a logical number.
fn numbered(number: u16, message: QwkMessage) -> QwkMessage
    ensures { result ≡ numbered_at number message }
{
    let mut message = message;
    message.header.logical = number;
    message
}

/// A draft in its place, with its long values as lines.
fn placed(alloc: Global, number: u16, draft: &QwkMessage) -> Result<QwkMessage, AllocError>
    ensures { IfOk result (λ message. message ≡ placed_at (number, draft.now)) }
{
    let message = with_long(alloc, draft)?;
    Ok(numbered(number, message))
}

/// Drafts in their places, of which the first has this number.
fn placed_drafts(
    alloc: Global,
    first: u16,
    drafts: QwkMessages,
) -> Result<Vec<QwkMessage>, AllocError>
    ensures { IfOk result (λ made. made.items ≡ placed_from first drafts) }
{
    let mut made = Vec::new(alloc);
    let mut number = first;
    for draft in drafts.into_vec() {
        let message = placed(alloc, number, &draft)?;
        made.push(message)?;
        number = number.saturating_add(1);
    }
    Ok(made)
}

/// Adds messages at the end. Where there is no memory for them, the list is unchanged.
fn append(
    alloc: Global,
    messages: &mut QwkMessages,
    more: Vec<QwkMessage>,
) -> Result<(), AllocError>
    ensures ok { OnOk result (messages.new ≡ messages.old ++ more.items) }
    ensures err { OnErr result (messages.new ≡ messages.old) }
{
    let mut more = more;
    let mut all = mem::replace(messages, QwkMessages::new(alloc)).into_vec();
    let added = all.append(&mut more);
    *messages = List::from_vec(all);
    added
}

/// Adds drafts at the end of a reply packet, each with its long values as lines, and with its place, from 1, as its
/// logical number, or 65,535 where the place is greater. Where there is no memory for them, the packet is unchanged.
pub fn add_drafts(alloc: Global, rep: &mut Rep, drafts: QwkMessages) -> Result<(), AllocError>
    ensures ok { OnOk result (rep.new ≡ with_drafts rep.old drafts) }
    ensures err { OnErr result (rep.new ≡ rep.old) }
{
    let more = placed_drafts(alloc, next_number(rep.messages.len()), drafts)?;
    append(alloc, &mut rep.messages, more)
}
