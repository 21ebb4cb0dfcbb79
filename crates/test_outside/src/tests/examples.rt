//! Examples as texts. Each line is a call, and behind ` = ` stands what it answers. A line with nothing there is a call
//! that is carried out and answers nothing, or whose answer is empty.
use std::alloc::AllocError;

/// A line of an example that isn't so, and in which round of it.
#[derive(Clone, Copy, Debug)]
pub(crate) struct Miss {
    pub line: &'static str,
    pub round: u32,
}

impl From<AllocError> for Miss {
    fn from(_error: AllocError) -> Miss {
        Miss {
            line: "out of memory",
            round: 0,
        }
    }
}

/// What carries out the lines of an example.
pub(crate) trait Example {
    /// Whether a line is so, or None where it is no line of such an example or memory is wanting.
    fn is_so(&mut self, line: &str) -> Option<bool>;
}

/// Carries out each line of an example, up to the first that isn't so.
pub(crate) fn play<E: Example>(
    example: &mut E,
    text: &'static str,
    round: u32,
) -> Result<(), Miss> {
    for line in text.lines() {
        let Some(true) = example.is_so(line) else {
            return Err(Miss { line, round });
        };
    }
    Ok(())
}

/// A miss where something isn't so.
pub(crate) fn expect(so: Option<bool>, line: &'static str, round: u32) -> Result<(), Miss> {
    match so {
        Some(true) => Ok(()),
        _ => Err(Miss { line, round }),
    }
}

/// The call of a line, and its answer.
pub(crate) fn answered(line: &str) -> (&str, &str) {
    line.split_once(" = ").unwrap_or((line, ""))
}

/// The first of some words, and what follows it.
pub(crate) fn parted(words: &str) -> (&str, &str) {
    words.split_once(' ').unwrap_or((words, ""))
}

/// The number that the first of some words is, and what follows it.
pub(crate) fn numbered(words: &str) -> Option<(u32, &str)> {
    let (word, rest) = parted(words);
    let number = word.parse::<u32>().ok()?;
    Some((number, rest))
}

/// Whether an answer is this number.
pub(crate) fn is_number(number: u64, answer: &str) -> bool {
    answer.parse::<u64>().ok() == Some(number)
}

/// Whether an answer says that a call was carried out, or failed.
pub(crate) fn ends(done: bool, answer: &str) -> bool {
    answer == if done { "" } else { "fault" }
}

/// Whether an answer says yes or no.
pub(crate) fn says(yes: bool, answer: &str) -> bool {
    answer == if yes { "yes" } else { "no" }
}
