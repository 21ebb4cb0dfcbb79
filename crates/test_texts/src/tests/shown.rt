//! What the examples take of a case, and how they show what they find.
use byte_lists::{Bytes, Lines};
use std::alloc::{AllocError, Global};
use test_cases::{Miss, quoted};

/// The one word of a case.
pub fn only(words: &[Bytes]) -> Result<&[u8], Miss> {
    match words {
        [word] => Ok(word.as_slice()),
        _ => Err(Miss::Words),
    }
}

/// Two parts of a text, or that there are none.
pub fn parts(alloc: Global, parts: Option<(&[u8], &[u8])>) -> Result<String, AllocError> {
    match parts {
        Some((front, rest)) => {
            let (front, rest) = (front.escape_ascii(), rest.escape_ascii());
            format!(in alloc; "\"{front}\" \"{rest}\"")
        }
        None => String::from_str(alloc, "none"),
    }
}

/// Lines or words, each between bars.
pub fn between_bars(alloc: Global, lines: &Lines) -> Result<String, AllocError> {
    let mut text = Bytes::from_slice(alloc, b"|")?;
    for line in lines.as_slice() {
        text.add(line.as_slice())?;
        text.add(b"|")?;
    }
    quoted(alloc, text.as_slice())
}
