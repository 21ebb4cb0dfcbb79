ghost use Rattle.std.specs.Prelude.{◌≡◌, ◌<◌, ◌==◌, [], ◌∷◌, ◌++◌, length, slice_get, slice_index_or, position, IfOk, IfSome, OnOk, OnErr, All};
ghost use Rattle.std.specs.Option.{option_copied};
ghost use Rattle.jam_layout.specs.Reader.{IsReader};

use crate::reader::Reader;
use jam_threads::{Shared, SharedList};
use std::alloc::{AllocError, Global};
use std::marker::Model;

/// The readers of a conference. Their ids rise. A copy shares them, and takes a step for each 128 of them. Contracts see
/// them in order.
#[derive(Debug, Drop)]
pub struct Readers {
    inner: SharedList<Shared<Reader>>,
}

impl Model for Readers {
    ghost use Rattle.std.specs.Prelude.{List, All};
    ghost use Rattle.jam_layout.specs.Reader.{IsReader};
    ghost use Rattle.jam_layout.specs.declared.reader.Reader.{Reader};

    ghost Value = { List Reader };

    ghost view = { λ s. s.inner };

    ghost invariant = { λ s. All IsReader s.inner };
}

impl Readers {
    /// The empty list. It takes no memory.
    pub fn new(alloc: Global) -> Readers
        ensures { result ≡ [] }
    {
        Readers {
            inner: SharedList::new(alloc),
        }
    }

    /// Adds a reader at the end. Where there is no memory, the list is unchanged and the reader dropped.
    pub fn add(&mut self, alloc: Global, reader: Reader) -> Result<(), AllocError>
        ensures ok { OnOk result (self.new ≡ self.old ++ reader ∷ []) }
        ensures err { OnErr result (self.new ≡ self.old) }
    {
        let _name = reader.name.as_slice();
        self.inner.add(alloc, Shared::new(alloc, reader)?)
    }

    /// How many readers there are.
    pub fn len(&self) -> usize
        ensures count { result ≡ length self.now }
        ensures fit { All IsReader self.now }
    {
        self.inner.len()
    }

    /// The reader at a place from 0, or None past the last.
    pub fn get(&self, place: usize) -> Option<&Reader>
        ensures { option_copied result ≡ slice_get self.now place }
    {
        self.inner.get(place).map(|reader| reader.get())
    }

    /// The reader at a place from 0.
    pub fn at(&self, place: usize) -> &Reader
        requires { place < length self.now }
        ensures { result.now ≡ slice_index_or self.now place result.now }
    {
        self.inner.at(place).get()
    }

    /// The place, from 0, of the reader with this id, or None where there is none.
    pub fn position(&self, id: u32) -> Option<usize>
        ensures place { result ≡ position (λ reader. reader.id == id) self.now }
        ensures within { IfSome result (λ place. place < length self.now) }
    {
        for place in 0..self.len() {
            if self.at(place).id == id {
                return Some(place);
            }
        }
        None
    }

    /// An equal list, which shares its readers.
    ///
    /// The error comes where there is no memory.
    pub fn copy(&self, alloc: Global) -> Result<Readers, AllocError>
        ensures { IfOk result (λ copy. copy ≡ self.now) }
    {
        Ok(Readers {
            inner: self.inner.copy(alloc)?,
        })
    }
}
