ghost use Rattle.std.specs.Prelude.{◌≡◌};
ghost use Rattle.jam_layout.specs.Valid.{ShapeFits};

use crate::reader_list::Readers;
use jam_records::{Duplicate, Kind};
use std::alloc::{AllocError, Global};

/// What the board says of a conference.
#[derive(Debug, Drop)]
pub struct Shape {
    /// Its place, from 0 to 63.
    pub place: u8,
    /// When the board was made, in Unix seconds.
    pub created: u32,
    /// Where its messages go.
    pub kind: Kind,
    /// Its readers.
    pub readers: Readers,
}

impl Shape {
    /// When the board was made, in Unix seconds.
    pub fn created(&self) -> u32
        ensures { result ≡ self.now.created }
    {
        self.created
    }

    /// Its readers, in order, of which the numbers and names are of their types.
    pub(crate) fn readers(&self) -> &Readers
        ensures same { result.now ≡ self.now.readers }
        ensures fit { ShapeFits self.now }
    {
        let _created = self.created();
        let _count = self.readers.len();
        &self.readers
    }
}

impl Duplicate for Shape {
    fn duplicate(&self, alloc: Global) -> Result<Shape, AllocError> {
        Ok(Shape {
            place: self.place,
            created: self.created,
            kind: self.kind,
            readers: self.readers.copy(alloc)?,
        })
    }
}
