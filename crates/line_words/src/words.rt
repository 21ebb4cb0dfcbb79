ghost use Rattle.std.specs.Prelude.{ℕ, List, IfOk, MatchOption};
ghost use Rattle.line_words.specs.Line.{LineReads};

use crate::spaces::without_spaces;
use crate::word::first_word;
use byte_lists::{Bytes, Lines};
use std::alloc::{AllocError, Global};

/// The words of a line, or None where a quote is open, or isn't followed by a space or the line's end. Words stand
/// between spaces. One that begins with a quote runs to the next quote, and may have spaces; it may be empty. A quote
/// inside another word is a byte of it.
///
/// The error comes where there is no memory.
pub fn words_of(alloc: Global, line: &[u8]) -> Result<Option<Lines>, AllocError>
    ensures { IfOk result (λ found. MatchOption found ((words : List (List ℕ)) → ¬ LineReads line.now words) (LineReads line.now)) }
{
    let mut words = Lines::new(alloc);
    let mut rest = without_spaces(line);
    while !rest.is_empty() {
        let Some((word, behind)) = first_word(rest) else {
            return Ok(None);
        };
        words.add(Bytes::from_slice(alloc, word)?)?;
        rest = without_spaces(behind);
    }
    Ok(Some(words))
}
