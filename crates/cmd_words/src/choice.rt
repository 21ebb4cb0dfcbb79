ghost use Rattle.std.specs.Prelude.{◌≡◌, ◌≤◌, ◌<◌, length, ◌==◌, IfOk, MatchOption};
ghost use Rattle.std.specs.List.{list_all, list_any};
ghost use Rattle.cmd_words.specs.Choice.{ChoiceReads, is_known as is_known_of, has_unknown as has_unknown_of, is_chosen, chosen_from};
ghost use Rattle.cmd_words.specs.declared.choice.Choice as Choices;

use crate::number::numbers_of;
use byte_lists::List;
use setup_file::Conference;
use std::alloc::{AllocError, Global};

/// Which conferences of a board are meant.
#[derive(Debug, Drop)]
pub enum Choice {
    /// All.
    Every,
    /// Those of these numbers, each of which may come more than once.
    Numbers(List<u32>),
}

/// Whether a conference has the number.
fn is_known(conferences: &[Conference], number: u32) -> bool
    ensures { result ≡ is_known_of conferences.now number }
{
    conferences.iter().any(|c| u32::from(c.number) == number)
}

/// Whether one of the numbers is this one.
fn has_number(numbers: &[u32], number: u16) -> bool
    ensures { result ≡ list_any (λ n. n == number) numbers.now }
{
    numbers.iter().any(|n| *n == u32::from(number))
}

/// Whether each of the numbers is that of a conference.
fn are_known(conferences: &[Conference], numbers: &[u32]) -> bool
    ensures { result ≡ list_all (is_known_of conferences.now) numbers.now }
{
    numbers.iter().all(|number| is_known(conferences, *number))
}

impl Choice {
    /// The choice that a word is: `all`, or number words joined by commas, and None where it is neither. The error comes where
    /// there is no memory.
    pub fn parse(alloc: Global, word: &[u8]) -> Result<Option<Choice>, AllocError>
        ensures { IfOk result (λ found. MatchOption found ((choice : Choices.Choice) → ¬ ChoiceReads word.now choice) (ChoiceReads word.now)) }
    {
        if word == b"all".as_slice() {
            return Ok(Some(Choice::Every));
        }
        match numbers_of(alloc, word)? {
            Some(numbers) => Ok(Some(Choice::Numbers(numbers))),
            None => Ok(None),
        }
    }

    /// Whether the conference of a number is among those that are meant. It takes no memory.
    pub fn names(&self, number: u16) -> bool
        ensures { result ≡ is_chosen self.now number }
    {
        match self {
            Choice::Every => true,
            Choice::Numbers(numbers) => has_number(numbers.as_slice(), number),
        }
    }

    /// Whether a number is that of no conference. It takes no memory.
    pub fn has_unknown(&self, conferences: &[Conference]) -> bool
        ensures { result ≡ has_unknown_of self.now conferences.now }
    {
        match self {
            Choice::Every => false,
            Choice::Numbers(numbers) => !are_known(conferences, numbers.as_slice()),
        }
    }

    /// The places of the conferences that are meant, bit k for place k from 0. It takes no memory.
    pub fn places(&self, conferences: &[Conference]) -> u64
        requires { length conferences.now ≤ 64 }
        ensures { result ≡ chosen_from self.now 0 conferences.now }
    {
        let mut places = 0;
        for (place, conference) in conferences.iter().enumerate() {
            if self.names(conference.number) {
                places += 1 << place;
            }
        }
        places
    }
}
