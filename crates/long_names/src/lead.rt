//! The lines before a text that give its long values.
ghost use Rattle.std.specs.Prelude.{◌≡◌, true, false, MatchOption};
ghost use Rattle.long_names.specs.Value.{gives, value_on};
ghost use Rattle.long_names.specs.Lead.{given as given_of, lead as lead_in, begins_empty as begins_empty_of, takes as takes_of};

use crate::line_field::LineField;
use crate::value::{is_long, short_form};
use qwk_blocks::Header;
use text_fields::Bytes;

/// The long value that a line gives to a field, which stands short in the header; or None where it gives none.
#[tactic(auto, unfolding(crate::specs::Value::gives))]
fn value_given<'a>(field: LineField, short: &[u8], line: &'a [u8]) -> Option<&'a [u8]>
    ensures { MatchOption result
        (gives field short.now line.now ≡ false)
        (λ value. (gives field short.now line.now ≡ true) × (value.now ≡ value_on field line.now)) }
{
    let value = line.strip_prefix(field.name())?;
    if !is_long(value, field.most()) {
        return None;
    }
    if !short_form(value).eq_ignore_ascii_case(short) {
        return None;
    }
    Some(value)
}

/// A field, or the long value that the first line gives it, and the lines behind.
fn given<'a>(field: LineField, short: &'a [u8], lines: &'a [Bytes]) -> (&'a [u8], &'a [Bytes])
    ensures value { result.0.now ≡ (given_of field short.now lines.now).0 }
    ensures rest { result.1.now ≡ (given_of field short.now lines.now).1 }
{
    if let [line, rest @ ..] = lines {
        if let Some(value) = value_given(field, short, line.as_slice()) {
            return (value, rest);
        }
    }
    (short, lines)
}

/// What the first of the lines give the fields of a header, and the lines behind those that do.
#[derive(Clone, Copy)]
pub(crate) struct Lead<'a> {
    pub(crate) to: &'a [u8],
    pub(crate) from: &'a [u8],
    pub(crate) subject: &'a [u8],
    pub(crate) rest: &'a [Bytes],
}

/// What the first of the lines give the fields of a header.
fn lead_of<'a>(header: &'a Header, lines: &'a [Bytes]) -> Lead<'a>
    ensures to { result.to.now ≡ (lead_in header.now lines.now).to }
    ensures from { result.from.now ≡ (lead_in header.now lines.now).from }
    ensures subject { result.subject.now ≡ (lead_in header.now lines.now).subject }
    ensures rest { result.rest.now ≡ (lead_in header.now lines.now).rest }
{
    let (to, behind_to) = given(LineField::To, header.to.as_slice(), lines);
    let (from, behind_from) = given(LineField::From, header.from.as_slice(), behind_to);
    let (subject, rest) = given(LineField::Subject, header.subject.as_slice(), behind_from);
    Lead {
        to,
        from,
        subject,
        rest,
    }
}

/// Whether the first line is there, and empty.
pub(crate) fn begins_empty(lines: &[Bytes]) -> bool
    ensures { result ≡ begins_empty_of lines.now }
{
    match lines {
        [] => false,
        [line, ..] => line.as_slice().is_empty(),
    }
}

/// What the first of the lines give the fields of a header, where one of them gives a value and an empty line follows.
#[tactic(auto, unfolding(crate::specs::Lead::takes))]
pub(crate) fn taken<'a>(header: &'a Header, lines: &'a [Bytes]) -> Option<Lead<'a>>
    ensures { MatchOption result
        (takes_of header.now lines.now ≡ false)
        (λ lead. (takes_of header.now lines.now ≡ true)
        × (lead.to.now ≡ (lead_in header.now lines.now).to)
        × (lead.from.now ≡ (lead_in header.now lines.now).from)
        × (lead.subject.now ≡ (lead_in header.now lines.now).subject)
        × (lead.rest.now ≡ (lead_in header.now lines.now).rest)) }
{
    let lead = lead_of(header, lines);
    if lead.rest.len() == lines.len() {
        return None;
    }
    if !begins_empty(lead.rest) {
        return None;
    }
    Some(lead)
}

/// Whether one of the first lines gives a value, and an empty line follows.
pub(crate) fn takes(header: &Header, lines: &[Bytes]) -> bool
    ensures { result ≡ takes_of header.now lines.now }
{
    taken(header, lines).is_some()
}
