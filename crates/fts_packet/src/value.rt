//! What a line has behind a key.
ghost use Rattle.std.specs.Prelude.{◌≡◌};
ghost use Rattle.std.specs.Option.{option_copied};
ghost use Rattle.setup_file.specs.Words.{trim};
ghost use Rattle.netmail_rules.specs.AddressLine.{is_plain as is_plain_of};
ghost use Rattle.fts_packet.specs.Lines.{is_id as is_id_of, id_or_none, keyed_value, tag_of as tag_in, first_value as first_value_of};

use byte_lists::Bytes;
use text_fields::{Blank, trimmed};

/// Whether no byte is below 20h.
pub fn is_plain(text: &[u8]) -> bool
    ensures { result ≡ is_plain_of text.now }
{
    text.iter().all(|b| 0x20 <= *b)
}

/// The bytes without the spaces at both ends.
fn trimmed_spaces(text: &[u8]) -> &[u8]
    ensures { result.now ≡ trim text.now }
{
    trimmed(text, Blank::Spaces)
}

/// The value of a line, without the spaces at its ends, or None where the line doesn't begin with the key.
fn value_behind<'a>(key: &[u8], line: &'a [u8]) -> Option<&'a [u8]>
    ensures { option_copied result ≡ keyed_value key.now line.now }
{
    let rest = line.strip_prefix(key)?;
    Some(trimmed_spaces(rest))
}

/// The tag of a text, which stands in its first line, or None where it has none.
pub fn tag_of(lines: &[Bytes]) -> Option<&[u8]>
    ensures { option_copied result ≡ tag_in lines.now }
{
    match lines {
        [] => None,
        [line, ..] => value_behind(b"AREA:", line.as_slice()),
    }
}

/// The value behind a key, in the first line that begins with it.
fn first_value<'a>(key: &[u8], lines: &'a [Bytes]) -> Option<&'a [u8]>
    ensures { option_copied result ≡ first_value_of key.now lines.now }
{
    let mut rest = lines;
    while let [line, more @ ..] = rest {
        if let Some(value) = value_behind(key, line.as_slice()) {
            return Some(value);
        }
        rest = more;
    }
    None
}

/// Whether a value is an id: 1 to 80 bytes, none below 20h.
fn is_id(value: &[u8]) -> bool
    ensures { result ≡ is_id_of value.now }
{
    let plain = is_plain(value);
    1 <= value.len() && value.len() <= 80 && plain
}

/// The id behind a key, in the first line that begins with it; nothing where there is no such line, or
/// its value is no id.
pub fn id_behind<'a>(key: &[u8], lines: &'a [Bytes]) -> &'a [u8]
    ensures { result.now ≡ id_or_none (first_value_of key.now lines.now) }
{
    match first_value(key, lines) {
        Some(value) if is_id(value) => value,
        _ => b"",
    }
}
