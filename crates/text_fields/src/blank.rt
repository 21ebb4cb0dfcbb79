ghost use Rattle.std.specs.Prelude.{◌↔◌, IsTrue};
ghost use Rattle.text_fields.specs.Blank.{IsBlank};

/// Which bytes are blanks around a text.
#[derive(Clone, Copy, Debug, PartialEq, Eq)]
pub enum Blank {
    /// Spaces alone, as in lines.
    Spaces,
    /// Spaces and NULs, as in the fields of a QWK header block.
    SpacesAndNuls,
}

impl Blank {
    /// Whether a byte is a blank.
    pub fn is_blank(self, byte: u8) -> bool
        ensures { IsTrue result ↔ IsBlank self byte }
    {
        match self {
            Blank::Spaces => byte == b' ',
            Blank::SpacesAndNuls => byte == b' ' || byte == 0,
        }
    }
}
