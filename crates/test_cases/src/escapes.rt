//! Words with escapes, and their bytes.
use crate::miss::Miss;
use byte_lists::Bytes;
use std::alloc::{AllocError, Global};
use text_fields::split_at_byte;

/// The byte that stands behind a backslash, and what follows it.
fn escaped(text: &[u8]) -> Option<(u8, &[u8])> {
    match text {
        [b'n', rest @ ..] => Some((b'\n', rest)),
        [b'r', rest @ ..] => Some((b'\r', rest)),
        [b't', rest @ ..] => Some((b'\t', rest)),
        [b'0', rest @ ..] => Some((0, rest)),
        [b'x', high, low, rest @ ..] => {
            let digits = [*high, *low];
            let digits = std::str::from_utf8(&digits).ok()?;
            Some((u8::from_str_radix(digits, 16).ok()?, rest))
        }
        _ => None,
    }
}

/// The number that a word is.
pub fn number_of(word: &[u8]) -> Result<u32, Miss> {
    match std::str::from_utf8(word) {
        Ok(digits) => digits.parse().ok().ok_or(Miss::Words),
        Err(_) => Err(Miss::Words),
    }
}

/// Adds bytes so many times.
fn add_times(bytes: &mut Bytes, part: &[u8], count: u32) -> Result<(), AllocError> {
    for _ in 0..count {
        bytes.add(part)?;
    }
    Ok(())
}

/// Adds the last byte until it stands so many times.
fn repeat_last(bytes: &mut Bytes, count: u32) -> Result<(), Miss> {
    let last = *bytes.as_slice().last().ok_or(Miss::Notation)?;
    let more = count.saturating_sub(1);
    add_times(bytes, &[last; 1024], more / 1024)?;
    add_times(bytes, &[last], more % 1024)?;
    Ok(())
}

/// Adds what stands behind a backslash.
fn add_escaped(bytes: &mut Bytes, text: &[u8]) -> Result<(), Miss> {
    if let [b'{', counted @ ..] = text {
        let (count, rest) = split_at_byte(counted, b'}').ok_or(Miss::Notation)?;
        repeat_last(bytes, number_of(count)?)?;
        bytes.add(rest)?;
    } else {
        let (byte, rest) = escaped(text).ok_or(Miss::Notation)?;
        bytes.add(&[byte])?;
        bytes.add(rest)?;
    }
    Ok(())
}

/// The bytes of a word with escapes.
pub fn bytes_of(alloc: Global, word: &[u8]) -> Result<Bytes, Miss> {
    let mut bytes = Bytes::new(alloc);
    let mut pieces = word.split(|byte| *byte == b'\\');
    if let Some(first) = pieces.next() {
        bytes.add(first)?;
    }
    for piece in pieces {
        add_escaped(&mut bytes, piece)?;
    }
    Ok(bytes)
}

/// Bytes between double quotes, as `escape_ascii` writes them.
pub fn quoted(alloc: Global, bytes: &[u8]) -> Result<String, AllocError> {
    format!(in alloc; "\"{}\"", bytes.escape_ascii())
}
