ghost use Rattle.std.specs.Prelude.{◌≡◌, ◌++◌, IfOk, IsTrue, OnOk};
ghost use Rattle.long_names.specs.Plain.{in_field as in_field_of, short_header as short_header_of, as_line, long_lines, with_long as with_long_of};

use crate::header::{add_lines, with_names};
use crate::lead::takes;
use crate::line_field::LineField;
use crate::reading::past_empty;
use crate::value::{is_long, short_form};
use qwk_blocks::{Header, QwkMessage};
use std::alloc::{AllocError, Global};
use text_fields::{Bytes, Lines};

/// A value as it stands in its field.
fn in_field(field: LineField, value: &[u8]) -> &[u8]
    ensures { result.now ≡ in_field_of field value.now }
{
    if is_long(value, field.most()) {
        short_form(value)
    } else {
        value
    }
}

/// A header with its long values short.
fn short_header(alloc: Global, header: &Header) -> Result<Header, AllocError>
    ensures { IfOk result (λ made. made ≡ short_header_of header.now) }
{
    let to = in_field(LineField::To, header.to.as_slice());
    let from = in_field(LineField::From, header.from.as_slice());
    let subject = in_field(LineField::Subject, header.subject.as_slice());
    with_names(alloc, header, to, from, subject)
}

/// Adds the line of a value, where it is long.
fn add_line(
    alloc: Global,
    lines: &mut Lines,
    field: LineField,
    value: &[u8],
) -> Result<(), AllocError>
    ensures { OnOk result (lines.new ≡ lines.old ++ as_line field value.now) }
{
    if !is_long(value, field.most()) {
        return Ok(());
    }
    let mut line = Bytes::from_slice(alloc, field.name())?;
    line.add(value)?;
    lines.add(line)
}

/// The lines of a header's long values.
fn lines_of(alloc: Global, header: &Header) -> Result<Lines, AllocError>
    ensures { IfOk result (λ lines. lines ≡ long_lines header.now) }
{
    let mut lines = Lines::new(alloc);
    add_line(alloc, &mut lines, LineField::To, header.to.as_slice())?;
    add_line(alloc, &mut lines, LineField::From, header.from.as_slice())?;
    add_line(
        alloc,
        &mut lines,
        LineField::Subject,
        header.subject.as_slice(),
    )?;
    Ok(lines)
}

/// Whether a message goes as it is: none of its values is long, and its text begins with no line that would be taken for
/// one. It takes no memory.
#[tactic(auto, unfolding(crate::specs::Plain::with_long))]
pub fn goes_as_is(message: &QwkMessage) -> bool
    ensures { IsTrue result → with_long_of message.now ≡ message.now }
{
    let header = &message.header;
    !is_long(header.to.as_slice(), LineField::To.most())
        && !is_long(header.from.as_slice(), LineField::From.most())
        && !is_long(header.subject.as_slice(), LineField::Subject.most())
        && !takes(header, past_empty(message.lines.as_slice()))
}

/// The message as it goes: with the short forms of its long values in the header, and with a line for each of them and
/// an empty line before its text. Where none is long and the text itself begins with such lines, an empty line goes
/// before it. `plain` gives back what was there.
///
/// The error comes where there is no memory.
#[tactic(auto, unfolding(crate::specs::Plain::with_long))]
pub fn with_long(alloc: Global, message: &QwkMessage) -> Result<QwkMessage, AllocError>
    ensures { IfOk result (λ made. made ≡ with_long_of message.now) }
{
    let header = short_header(alloc, &message.header)?;
    let mut lines = lines_of(alloc, &message.header)?;
    let text = message.lines.as_slice();
    if lines.len() > 0 || takes(&message.header, past_empty(text)) {
        lines.add(Bytes::new(alloc))?;
    }
    add_lines(alloc, &mut lines, text)?;
    Ok(QwkMessage { header, lines })
}
