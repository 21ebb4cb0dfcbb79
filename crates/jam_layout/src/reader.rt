use jam_records::{Bytes, Duplicate};
use std::alloc::{AllocError, Global};

/// A reader of a conference.
#[derive(Debug, Drop)]
pub struct Reader {
    /// The user's id on the board, from 1.
    pub id: u32,
    /// The user's name, of which .JLR has the checksum.
    pub name: Bytes,
}

impl Duplicate for Reader {
    fn duplicate(&self, alloc: Global) -> Result<Reader, AllocError> {
        Ok(Reader {
            id: self.id,
            name: self.name.copy(alloc)?,
        })
    }
}
