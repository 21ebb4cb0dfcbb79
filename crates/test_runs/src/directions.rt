//! The parts of a direction: the bytes of a text, and files of blocks.
use crate::miss::Miss;
use byte_lists::Bytes;
use std::alloc::Global;

/// The byte that stands behind a backslash, and what follows it.
fn escaped(text: &[u8]) -> Option<(u8, &[u8])> {
    match text {
        [b'n', rest @ ..] => Some((b'\n', rest)),
        [b'r', rest @ ..] => Some((b'\r', rest)),
        [b'0', rest @ ..] => Some((0, rest)),
        [b'x', high, low, rest @ ..] => {
            let digits = [*high, *low];
            let digits = std::str::from_utf8(&digits).ok()?;
            Some((u8::from_str_radix(digits, 16).ok()?, rest))
        }
        _ => None,
    }
}

/// The bytes of a text, in which `\n`, `\r`, `\0` and `\x` with two hexadecimal digits are a byte each.
pub(crate) fn bytes_of(alloc: Global, text: &str) -> Result<Bytes, Miss> {
    let mut bytes = Bytes::new(alloc);
    let mut pieces = text.split('\\');
    if let Some(first) = pieces.next() {
        bytes.add(first.as_bytes())?;
    }
    for piece in pieces {
        let (byte, rest) = escaped(piece.as_bytes()).ok_or("a backslash stands alone")?;
        bytes.add(&[byte])?;
        bytes.add(rest)?;
    }
    Ok(bytes)
}

/// The bytes of lines, each filled up with spaces to a block of 128 bytes.
pub(crate) fn blocks_of(alloc: Global, lines: &str) -> Result<Bytes, Miss> {
    let mut blocks = Bytes::new(alloc);
    for line in lines.split('\n') {
        let block = bytes_of(alloc, line)?;
        blocks.add(block.as_slice())?;
        for _ in block.as_slice().len()..128 {
            blocks.add(b" ")?;
        }
    }
    Ok(blocks)
}

/// The two parts of a text around its first space or line end.
pub(crate) fn parted(text: &str) -> Result<(&str, &str), Miss> {
    let parts = text.split_once([' ', '\n']);
    Ok(parts.ok_or("a direction is too short")?)
}

/// The number that a text is.
pub(crate) fn number_of(text: &str) -> Result<usize, Miss> {
    Ok(text.parse().ok().ok_or("a direction lacks a number")?)
}
