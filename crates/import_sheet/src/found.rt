ghost use Rattle.std.specs.Prelude.{◌≡◌, ◌≢◌, [], ◌++◌, ◌∷◌, ℕ, List, MatchResult, IfOk, IsTrue, ◌↔◌, codes};
ghost use Rattle.import_sheet.specs.Sheet.{Headers, FieldsAre, HeaderGives, HeaderGivesDate, Has};
ghost use Rattle.import_sheet.specs.Fault.{LineBreaks, WholeHeaders};
ghost use Rattle.import_sheet.specs.State.{value_in, with_value, HoldsValues, text_or_empty};
ghost use Rattle.import_sheet.specs.declared.field.Field.TheVariants as field;

use crate::fault::SheetRule;
use crate::field::{Field, field_of};
use crate::sheet::Sheet;
use crate::value::{date_of, says_yes, value_fits};
use byte_lists::Bytes;
use std::alloc::{AllocError, Global};

/// The values of the header lines so far.
#[derive(Clone, Copy)]
pub struct Found<'a> {
    from: Option<&'a [u8]>,
    to: Option<&'a [u8]>,
    subject: Option<&'a [u8]>,
    date: Option<&'a [u8]>,
    msgid: Option<&'a [u8]>,
    reply: Option<&'a [u8]>,
    private: Option<&'a [u8]>,
}

/// A copy of the value, or an empty text where there is none.
fn text(alloc: Global, value: Option<&[u8]>) -> Result<Bytes, AllocError>
    ensures { IfOk result (λ made. made ≡ text_or_empty value.entry) }
{
    match value {
        Some(value) => Bytes::from_slice(alloc, value),
        None => Ok(Bytes::new(alloc)),
    }
}

impl<'a> Found<'a> {
    /// No values.
    pub fn none() -> Found<'a>
        ensures { HoldsValues [] result }
    {
        Found {
            from: None,
            to: None,
            subject: None,
            date: None,
            msgid: None,
            reply: None,
            private: None,
        }
    }

    /// The value of a field, where its line was there.
    fn get(self, field: Field) -> Option<&'a [u8]>
        ensures { result ≡ value_in self.entry field }
    {
        match field {
            Field::From => self.from,
            Field::To => self.to,
            Field::Subject => self.subject,
            Field::Date => self.date,
            Field::Msgid => self.msgid,
            Field::Reply => self.reply,
            Field::Private => self.private,
        }
    }

    /// The values with one more.
    fn with(self, field: Field, value: &'a [u8]) -> Found<'a>
        ensures { result ≡ with_value self.entry field value.entry }
    {
        let mut found = self;
        match field {
            Field::From => found.from = Some(value),
            Field::To => found.to = Some(value),
            Field::Subject => found.subject = Some(value),
            Field::Date => found.date = Some(value),
            Field::Msgid => found.msgid = Some(value),
            Field::Reply => found.reply = Some(value),
            Field::Private => found.private = Some(value),
        }
        found
    }

    /// The values with those of one header line more, or the rule that the line breaks. It isn't empty.
    pub fn with_line(self, line: &'a [u8]) -> Result<Found<'a>, SheetRule>
        requires { line.now ≢ [] }
        ensures { (headers : List (List ℕ)) → Headers headers → HoldsValues headers self.entry → MatchResult result (λ found. Headers (headers ++ line.now ∷ []) × HoldsValues (headers ++ line.now ∷ []) found) (LineBreaks headers line.now) }
    {
        let Some((field, value)) = field_of(line) else {
            return Err(SheetRule::Header);
        };
        if self.get(field).is_some() {
            return Err(SheetRule::Twice);
        }
        if !value_fits(field, value) {
            return Err(field.rule());
        }
        Ok(self.with(field, value))
    }

    /// Whether From and To were there.
    pub fn is_whole(self) -> bool
        ensures { (headers : List (List ℕ)) → HoldsValues headers self.entry → (IsTrue result ↔ Has headers field.From × Has headers field.To) }
    {
        self.from.is_some() && self.to.is_some()
    }

    /// The date, where its line was there.
    fn date(self) -> Option<u32>
        ensures { (headers : List (List ℕ)) → Headers headers → HoldsValues headers self.entry → HeaderGivesDate headers result }
    {
        match self.date {
            Some(value) => date_of(value),
            None => None,
        }
    }

    /// Whether a line said `yes`.
    fn private(self) -> bool
        ensures { (headers : List (List ℕ)) → Headers headers → HoldsValues headers self.entry → (IsTrue result ↔ HeaderGives headers field.Private (codes "yes")) }
    {
        match self.private {
            Some(value) => says_yes(value),
            None => false,
        }
    }

    /// The message of these headers and this body.
    pub fn sheet(self, alloc: Global, body: Bytes) -> Result<Sheet, AllocError>
        ensures fields { (headers : List (List ℕ)) → WholeHeaders headers → HoldsValues headers self.entry → IfOk result (FieldsAre headers) }
        ensures text { IfOk result (λ sheet. sheet.body ≡ body) }
    {
        Ok(Sheet {
            from: text(alloc, self.from)?,
            to: text(alloc, self.to)?,
            subject: text(alloc, self.subject)?,
            date: self.date(),
            msgid: text(alloc, self.msgid)?,
            reply: text(alloc, self.reply)?,
            private: self.private(),
            body,
        })
    }
}
