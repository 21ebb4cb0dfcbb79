//! Tables of examples, and the bytes that their texts stand for.
use byte_lists::Bytes;
use std::alloc::Global;
use std::test::Fail;

/// What the lines of a table ask of.
pub trait Subject {
    /// What is found of what a line asks, as a text.
    fn found(&mut self, alloc: Global, asked: &str) -> Result<String, Fail>;
}

/// Asks each line of a table. A line is what is asked, ` = ` and what has to be found.
pub fn expect<S: Subject>(alloc: Global, subject: &mut S, table: &str) -> Result<(), Fail> {
    for line in table.trim_matches('\n').split('\n') {
        let (asked, wanted) = line.rsplit_once(" = ").ok_or("a line of no example")?;
        let found = subject.found(alloc, asked)?;
        if found.as_str() != wanted {
            return Err(Fail::new(format_args!("{found} in place of {wanted}: {asked}")));
        }
    }
    Ok(())
}

/// What stands behind a backslash, and what follows it.
fn escaped(text: &[u8]) -> Option<(u8, usize, &[u8])> {
    match text {
        [b'r', rest @ ..] => Some((b'\r', 1, rest)),
        [b'0', rest @ ..] => Some((0, 1, rest)),
        [b'z', rest @ ..] => Some((0, 1000, rest)),
        [b'x', high, low, rest @ ..] => {
            let digits = [*high, *low];
            let digits = std::str::from_utf8(&digits).ok()?;
            Some((u8::from_str_radix(digits, 16).ok()?, 1, rest))
        }
        _ => None,
    }
}

/// The bytes of a text, in which `\r`, `\0` and `\x` with two hexadecimal digits are a byte each, and `\z` is a
/// thousand zeros.
pub fn bytes_of(alloc: Global, text: &str) -> Result<Bytes, Fail> {
    let mut bytes = Bytes::new(alloc);
    let mut pieces = text.split('\\');
    if let Some(first) = pieces.next() {
        bytes.add(first.as_bytes())?;
    }
    for piece in pieces {
        let (byte, count, rest) = escaped(piece.as_bytes()).ok_or("a backslash stands alone")?;
        for _ in 0..count {
            bytes.add(&[byte])?;
        }
        bytes.add(rest)?;
    }
    Ok(bytes)
}

/// The two parts of a text around its first space.
pub fn parted(text: &str) -> Result<(&str, &str), Fail> {
    Ok(text.split_once(' ').ok_or("a line is too short")?)
}

/// The number that a text is.
pub fn number_of(text: &str) -> Result<u32, Fail> {
    Ok(text.parse().ok().ok_or("a line lacks a number")?)
}
