ghost use Rattle.std.specs.Prelude.{◌≡◌, ◌<◌, drop, IfOk, IsTrue};
ghost use Rattle.long_names.specs.Plain.{is_empty, past_empty as past_empty_of, with_names as with_names_of, is_marked as is_marked_of, unmarked as unmarked_of, reads_as_is as reads_as_is_of, plain as plain_of};

use crate::header::{add_lines, with_names};
use crate::lead::{Lead, begins_empty, taken, takes};
use qwk_blocks::{Header, QwkMessage};
use std::alloc::{AllocError, Global};
use text_fields::{Bytes, Duplicate, Lines};

/// The lines behind the empty ones at the front.
pub(crate) fn past_empty(lines: &[Bytes]) -> &[Bytes]
    ensures { result.now ≡ past_empty_of lines.now }
{
    let mut rest = lines;
    while let [first, behind @ ..] = rest {
        if !first.as_slice().is_empty() {
            break;
        }
        rest = behind;
    }
    rest
}

/// The lines behind the first, or none.
fn behind_first(lines: &[Bytes]) -> &[Bytes]
    ensures { result.now ≡ drop 1 lines.now }
{
    match lines {
        [] => lines,
        [_, rest @ ..] => rest,
    }
}

/// A message with these values and the lines behind the first.
fn with_lead(alloc: Global, header: &Header, lead: &Lead) -> Result<QwkMessage, AllocError>
    ensures { IfOk result (λ made. made ≡ record { header = with_names_of lead.now.to.now lead.now.from.now lead.now.subject.now header.now; lines = drop 1 lead.now.rest.now }) }
{
    let header = with_names(alloc, header, lead.to, lead.from, lead.subject)?;
    let mut lines = Lines::new(alloc);
    add_lines(alloc, &mut lines, behind_first(lead.rest))?;
    Ok(QwkMessage { header, lines })
}

/// Whether the first line is an empty one that marks the lines as text.
fn is_marked(header: &Header, lines: &[Bytes]) -> bool
    ensures { result ≡ is_marked_of header.now lines.now }
{
    begins_empty(lines) && takes(header, past_empty(lines))
}

/// The lines of a text without the empty line that marks it as text.
fn unmarked<'a>(header: &Header, lines: &'a [Bytes]) -> &'a [Bytes]
    ensures { result.now ≡ unmarked_of header.now lines.now }
{
    if is_marked(header, lines) {
        behind_first(lines)
    } else {
        lines
    }
}

/// Whether a reader sees the message as it is: no line before its text gives a long value, and none marks it as text.
#[tactic(auto, unfolding(crate::specs::Plain::plain))]
pub fn reads_as_is(message: &QwkMessage) -> bool
    ensures value { result ≡ reads_as_is_of message.now }
    ensures same { IsTrue result → plain_of message.now ≡ message.now }
{
    let lines = message.lines.as_slice();
    !takes(&message.header, lines) && !is_marked(&message.header, lines)
}

/// The message that a reader sees: with the long values that lines before its text give, which are left out of the
/// text. Where the text itself begins with such lines, behind one empty line more, it is without that one.
///
/// The error comes where there is no memory.
#[tactic(auto, unfolding(crate::specs::Plain::plain))]
pub fn plain(alloc: Global, message: &QwkMessage) -> Result<QwkMessage, AllocError>
    ensures { IfOk result (λ plain. plain ≡ plain_of message.now) }
{
    let lines = message.lines.as_slice();
    if let Some(lead) = taken(&message.header, lines) {
        return with_lead(alloc, &message.header, &lead);
    }
    let mut text = Lines::new(alloc);
    add_lines(alloc, &mut text, unmarked(&message.header, lines))?;
    let header = message.header.duplicate(alloc)?;
    Ok(QwkMessage {
        header,
        lines: text,
    })
}
