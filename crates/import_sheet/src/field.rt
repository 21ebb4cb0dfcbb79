ghost use Rattle.std.specs.Prelude.{◌≡◌, MatchOption};
ghost use Rattle.import_sheet.specs.Header.{word_of, rule_of_field, BeginsWithWord, HeaderLineReads};
ghost use Rattle.import_sheet.specs.declared.field.Field.{Field};

use crate::fault::SheetRule;
use text_fields::{Blank, trimmed};

/// What a header line gives.
#[derive(Clone, Copy)]
pub enum Field {
    From,
    To,
    Subject,
    Date,
    Msgid,
    Reply,
    Private,
}

const FIELDS: [Field; 7] = [
    Field::From,
    Field::To,
    Field::Subject,
    Field::Date,
    Field::Msgid,
    Field::Reply,
    Field::Private,
];

impl Field {
    /// The word that the field's line begins with.
    fn word(self) -> &'static [u8]
        ensures { result.now ≡ word_of self }
    {
        match self {
            Field::From => b"From:",
            Field::To => b"To:",
            Field::Subject => b"Subject:",
            Field::Date => b"Date:",
            Field::Msgid => b"Msgid:",
            Field::Reply => b"Reply:",
            Field::Private => b"Private:",
        }
    }

    /// The rule that a bad value of the field breaks.
    pub fn rule(self) -> SheetRule
        ensures { result ≡ rule_of_field self }
    {
        match self {
            Field::From => SheetRule::From,
            Field::To => SheetRule::To,
            Field::Subject => SheetRule::Subject,
            Field::Date => SheetRule::Date,
            Field::Msgid => SheetRule::Msgid,
            Field::Reply => SheetRule::Reply,
            Field::Private => SheetRule::Private,
        }
    }

    /// The value that a line gives this field, or None where it doesn't begin with the field's word.
    fn value_in(self, line: &[u8]) -> Option<&[u8]>
        ensures { MatchOption result (¬ BeginsWithWord self line.now) (λ value. HeaderLineReads line.now self value.now) }
    {
        let rest = line.strip_prefix(self.word())?;
        Some(trimmed(rest, Blank::Spaces))
    }
}

/// The field that a line gives and its value, or None where the line begins with no word.
pub fn field_of(line: &[u8]) -> Option<(Field, &[u8])>
    ensures { MatchOption result ((field : Field) → ¬ BeginsWithWord field line.now) (λ found. HeaderLineReads line.now found.0 found.1.now) }
{
    for field in FIELDS {
        if let Some(value) = field.value_in(line) {
            return Some((field, value));
        }
    }
    None
}
