ghost use Rattle.std.specs.Prelude.{◌≡◌, ◌<◌, [], ◌∷◌, MatchOption, false, true};
ghost use Rattle.setup_file.specs.Words.{trim, first_word, behind_word, words, is_number, number_of as number_in, kind_of as kind_in, rights_of as rights_in, begins_with, value_behind as value_in};

use jam_records::Kind;
use text_fields::{Blank, digits_of, split_at_byte, trimmed};

/// The bytes without the spaces at both ends.
fn trimmed_spaces(text: &[u8]) -> &[u8]
    ensures { result.now ≡ trim text.now }
{
    trimmed(text, Blank::Spaces)
}

/// The value of a line, without the spaces at its ends, or None where the line doesn't begin with the key.
pub fn value_behind<'a>(key: &[u8], line: &'a [u8]) -> Option<&'a [u8]>
    ensures { MatchOption result
        (begins_with key.now line.now ≡ false)
        (λ value. (begins_with key.now line.now ≡ true) × (value.now ≡ value_in key.now line.now)) }
{
    let rest = line.strip_prefix(key)?;
    Some(trimmed_spaces(rest))
}

/// The bytes up to the first space, and what follows, without the spaces at its ends.
pub fn split_word(text: &[u8]) -> (&[u8], &[u8])
    ensures word { result.0.now ≡ first_word text.now }
    ensures rest { result.1.now ≡ behind_word text.now }
{
    match split_at_byte(text, b' ') {
        Some((word, rest)) => (word, trimmed_spaces(rest)),
        None => (text, b""),
    }
}

/// The first word between spaces, and what stands behind it, or None where there is none.
pub fn next_word(text: &[u8]) -> Option<(&[u8], &[u8])>
    ensures { MatchOption result (words text.now ≡ []) (λ found. words text.now ≡ found.0.now ∷ words found.1.now) }
{
    let mut here = text;
    while let Some((word, rest)) = split_at_byte(here, b' ') {
        if !word.is_empty() {
            return Some((word, rest));
        }
        here = rest;
    }
    if here.is_empty() {
        return None;
    }
    Some((here, b""))
}

/// The number that 1 to 5 digits spell, or None where the word isn't that.
pub fn number_of(word: &[u8]) -> Option<u32>
    ensures { MatchOption result
        (is_number word.now ≡ false)
        (λ n. (is_number word.now ≡ true) × (n ≡ number_in word.now)) }
{
    if word.len() > 5 {
        return None;
    }
    match digits_of(word) {
        Some(number) => Some(number as u32),
        None => None,
    }
}

/// Where the messages of a conference go, by its second word.
#[tactic(auto, unfolding(crate::specs::Words::kind_of))]
pub fn kind_of(word: &[u8]) -> Option<Kind>
    ensures { result ≡ kind_in word.now }
{
    match word {
        b"local" => Some(Kind::Local),
        b"echo" => Some(Kind::Echo),
        b"net" => Some(Kind::Net),
        _ => None,
    }
}

/// Whether a conference is read-only, and whether it allows private messages, by its third word.
#[tactic(auto, unfolding(crate::specs::Words::rights_of))]
pub fn rights_of(word: &[u8]) -> Option<(bool, bool)>
    ensures { result ≡ rights_in word.now }
{
    match word {
        b"-" => Some((false, false)),
        b"r" => Some((true, false)),
        b"p" => Some((false, true)),
        b"rp" => Some((true, true)),
        _ => None,
    }
}
