ghost use Rattle.std.specs.Prelude.{◌≡◌, ℕ, List, [], ◌∷◌, ◌++◌, IfOk, MatchOption, OnOk, OnErr};
ghost use Rattle.line_words.specs.Line.{LineReads};

use byte_lists::{Bytes, Lines};
use line_words::words_of;
use std::alloc::{AllocError, Global};
use std::marker::Model;

/// The words of a command line, each any bytes.
#[derive(Drop)]
pub struct Words {
    alloc: Global,
    list: Lines,
}

impl Model for Words {
    ghost Value = { List (List ℕ) };

    ghost view = { λ a. a.list };
}

impl Words {
    /// No words. It takes no memory.
    pub fn new(alloc: Global) -> Words
        ensures { result ≡ [] }
    {
        Words {
            alloc,
            list: Lines::new(alloc),
        }
    }

    /// The words of a line, or None exactly where a quote is open, or isn't followed by a space or the line's end.
    /// Words stand between spaces. One that begins with a quote runs to the next quote.
    ///
    /// The error comes where there is no memory.
    pub fn of_line(alloc: Global, line: &[u8]) -> Result<Option<Words>, AllocError>
        ensures { IfOk result (λ found. MatchOption found ((words : List (List ℕ)) → ¬ LineReads line.now words) (LineReads line.now)) }
    {
        match words_of(alloc, line)? {
            Some(list) => Ok(Some(Words { alloc, list })),
            None => Ok(None),
        }
    }

    /// Adds a word at the end. Where there is no memory for it, the words are unchanged.
    pub fn add(&mut self, word: &[u8]) -> Result<(), AllocError>
        ensures ok { OnOk result (self.new ≡ self.old ++ word.now ∷ []) }
        ensures err { OnErr result (self.new ≡ self.old) }
    {
        let word = Bytes::from_slice(self.alloc, word)?;
        self.list.add(word)
    }

    /// The words in order.
    pub fn as_slice(&self) -> &[Bytes]
        ensures { result.now ≡ self.now }
    {
        self.list.as_slice()
    }
}
