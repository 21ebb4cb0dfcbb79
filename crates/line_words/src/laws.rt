//! The law of the words of a line.
ghost use Rattle.std.specs.Prelude.{◌≡◌, ℕ, List};
ghost use Rattle.line_words.specs.Line.{LineReads};

/// A line reads as one list of words at most.
pub fn one_reading()
    ensures { (line : List ℕ) (a b : List (List ℕ)) → LineReads line a → LineReads line b → a ≡ b }
{}
