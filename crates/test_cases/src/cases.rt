use crate::escapes::bytes_of;
use crate::miss::Miss;
use byte_lists::{Bytes, Lines};
use line_words::words_of;
use std::alloc::Global;

/// Adds the words of a line.
fn add_words(alloc: Global, words: &mut Lines, line: &str) -> Result<(), Miss> {
    let written = words_of(alloc, line.as_bytes())?.ok_or(Miss::Notation)?;
    for word in written.as_slice() {
        words.add(bytes_of(alloc, word.as_slice())?)?;
    }
    Ok(())
}

/// The words of a text of one or more lines.
pub fn words_in(alloc: Global, text: &str) -> Result<Lines, Miss> {
    let mut words = Lines::new(alloc);
    for line in text.split('\n') {
        add_words(alloc, &mut words, line)?;
    }
    Ok(words)
}

/// Looks at the cases of a text, each of whose words the function makes what is found of.
pub fn expect_cases<F: Fn(Global, &[Bytes]) -> Result<String, Miss>>(
    alloc: Global,
    cases: &str,
    find: F,
) -> Result<(), Miss>
    requires { F.IsAlwaysCallable find }
{
    let mut words = Lines::new(alloc);
    for (place, line) in cases.split('\n').enumerate() {
        if line.starts_with("# ") {
            continue;
        }
        let Some((last, wanted)) = line.split_once("=> ") else {
            add_words(alloc, &mut words, line)?;
            continue;
        };
        add_words(alloc, &mut words, last)?;
        let found = match find(alloc, words.as_slice()) {
            Ok(found) => found,
            Err(miss) => format!(in alloc; "{miss}")?,
        };
        if found.as_str() != wanted {
            return Err(Miss::differs(alloc, place, line, found)?);
        }
        words = Lines::new(alloc);
    }
    if words.len() > 0 {
        return Err(Miss::Notation);
    }
    Ok(())
}
