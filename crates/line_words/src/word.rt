// The first word of a line, and what stands behind it.
ghost use Rattle.std.specs.Prelude.{◌≡◌, ◌≢◌, ◌↔◌, ◌∷◌, [], ℕ, List, IsTrue, MatchOption};
ghost use Rattle.line_words.specs.Line.{Begins, BeginsBare, BeginsQuoted, EndsWord};
ghost use Rattle.text_fields.specs.Trim.{BeginsWithNone};

use text_fields::split_at_byte;

/// Whether a word may end before these bytes: there are none, or the first is a space.
fn ends_word(rest: &[u8]) -> bool
    ensures { IsTrue result ↔ EndsWord rest.now }
{
    match rest {
        [] => true,
        [first, ..] => *first == b' ',
    }
}

/// The word up to the next quote, and what stands behind that, which is nothing or begins with a space; or None where
/// there is no quote, or another byte stands behind it.
fn quoted(text: &[u8]) -> Option<(&[u8], &[u8])>
    ensures { MatchOption result ((word rest : List ℕ) → ¬ BeginsQuoted text.now word rest) (λ parts. BeginsQuoted text.now parts.0.now parts.1.now) }
{
    let Some((word, rest)) = split_at_byte(text, b'"') else {
        return None;
    };
    if !ends_word(rest) {
        return None;
    }
    Some((word, rest))
}

/// The bytes before the first space, and those from there on. There is a byte, which is no space and no quote.
fn bare(text: &[u8]) -> (&[u8], &[u8])
    requires some { text.now ≢ [] }
    requires begins { BeginsWithNone (λ b. b ≡ 32) text.now }
    requires unquoted { (rest : List ℕ) → text.now ≢ 34 ∷ rest }
    ensures { BeginsBare text.now result.0.now result.1.now }
{
    match split_at_byte(text, b' ') {
        Some((word, _)) => (word, &text[word.len()..]),
        None => (text, b""),
    }
}

/// The first word of a line that begins with none of the spaces between words, and what stands behind it; or None
/// where a quote is open, or isn't followed by a space or the line's end.
pub(crate) fn first_word(line: &[u8]) -> Option<(&[u8], &[u8])>
    requires some { line.now ≢ [] }
    requires bare { BeginsWithNone (λ b. b ≡ 32) line.now }
    ensures { MatchOption result ((word rest : List ℕ) → ¬ Begins line.now word rest) (λ parts. Begins line.now parts.0.now parts.1.now) }
{
    match line {
        [b'"', behind @ ..] => quoted(behind),
        _ => Some(bare(line)),
    }
}
