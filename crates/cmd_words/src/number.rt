ghost use Rattle.std.specs.Prelude.{ℕ, List, IfOk, MatchOption};
ghost use Rattle.cmd_words.specs.NumberWord.{NumberWord, JoinedNumbers};

use byte_lists::List;
use std::alloc::{AllocError, Global};
use text_fields::{digits_of, split_at_byte};

/// The number of a word, or None where the word isn't 1 to 10 digits of a value of at most 4,294,967,295.
pub fn number_of(word: &[u8]) -> Option<u32>
    ensures { MatchOption result ((n : ℕ) → ¬ NumberWord word.now n) (NumberWord word.now) }
{
    if word.len() > 10 {
        return None;
    }
    match digits_of(word) {
        Some(n) if n <= 4_294_967_295 => Some(n as u32),
        _ => None,
    }
}

/// The numbers of number words that are joined by commas, or None where the text isn't one or more of them.
pub(crate) fn numbers_of(alloc: Global, text: &[u8]) -> Result<Option<List<u32>>, AllocError>
    ensures { IfOk result (λ found. MatchOption found ((numbers : List ℕ) → ¬ JoinedNumbers text.now numbers) (JoinedNumbers text.now)) }
{
    let mut numbers = List::new(alloc);
    let mut rest = text;
    while let Some((word, behind)) = split_at_byte(rest, b',') {
        let Some(number) = number_of(word) else {
            return Ok(None);
        };
        numbers.add(number)?;
        rest = behind;
    }
    let Some(last) = number_of(rest) else {
        return Ok(None);
    };
    numbers.add(last)?;
    Ok(Some(numbers))
}
