ghost use Rattle.std.specs.Prelude.{◌≡◌};
ghost use Rattle.long_names.specs.Value.{name_of, most_of};

/// A field of a QWK header whose long value goes as a line before the text.
#[derive(Clone, Copy)]
pub enum LineField {
    /// To: a name of at most 36 bytes.
    To,
    /// From: a name of at most 36 bytes.
    From,
    /// The subject, of at most 72 bytes.
    Subject,
}

impl LineField {
    /// What the field's line begins with.
    pub(crate) fn name(self) -> &'static [u8]
        ensures { result.now ≡ name_of self }
    {
        match self {
            LineField::To => b"To: ",
            LineField::From => b"From: ",
            LineField::Subject => b"Subject: ",
        }
    }

    /// The most bytes of its value.
    pub fn most(self) -> usize
        ensures { result ≡ most_of self }
    {
        match self {
            LineField::To | LineField::From => 36,
            LineField::Subject => 72,
        }
    }
}
