use jam_records::{Bytes, Duplicate, Kind, List};
use std::alloc::{AllocError, Global};

/// What a board's setup says of a conference.
#[derive(Debug, Drop)]
pub struct Conference {
    /// Its number, 0 to 65,535, which callers see. Numbers rise with the places.
    pub number: u16,
    /// Where its messages go.
    pub kind: Kind,
    /// Whether callers may only read.
    pub readonly: bool,
    /// Whether private messages are allowed.
    pub private: bool,
    /// Its name, 1 to 13 bytes from 20h to 7Eh.
    pub name: Bytes,
}

/// The conferences of a board, 1 to 64, by their places from 0.
pub type Conferences = List<Conference>;

impl Duplicate for Conference {
    fn duplicate(&self, alloc: Global) -> Result<Conference, AllocError> {
        Ok(Conference {
            number: self.number,
            kind: self.kind,
            readonly: self.readonly,
            private: self.private,
            name: self.name.copy(alloc)?,
        })
    }
}
