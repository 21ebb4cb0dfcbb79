ghost use Rattle.std.specs.Prelude.{◌≡◌, [], ◌∷◌, MatchOption};
ghost use Rattle.std.specs.Str.Lines.{lines};
ghost use Rattle.text_fields.specs.Numbered.{IsNumbered, Ahead};

use crate::lines::next_line;

/// What isn't read yet of a text, and the number of its first line.
#[derive(Clone, Copy)]
pub struct Unread<'a> {
    /// The text from its first line on.
    pub text: &'a [u8],
    /// The number of that line.
    pub line: u32,
}

impl<'a> Unread<'a> {
    /// The first line, and what is then unread.
    pub fn next(self) -> Option<(&'a [u8], Unread<'a>)>
        requires { IsNumbered (lines self.text.now) self.line }
        ensures { MatchOption result (lines self.entry.text.now ≡ []) (λ found. Ahead (lines self.entry.text.now) self.entry.line (lines found.1.text.now) found.1.line (found.0.now ∷ [])) }
    {
        let (line, text) = next_line(self.text)?;
        let after = Unread {
            text,
            line: self.line + 1,
        };
        Some((line, after))
    }
}
