ghost use Rattle.std.specs.Prelude.{◌≡◌, ◌<◌, [], ◌∷◌, ◌++◌, length, slice_get, slice_index_or, slice_set, IfOk, OnOk, OnErr};
ghost use Rattle.std.specs.Option.{option_copied};
ghost use Rattle.shared_lists.specs.Chunks.{joined, AreChunks};

use crate::handles::Shared;
use byte_lists::{Duplicate, List};
use std::alloc::{AllocError, Global};
use std::marker::Model;
use std::mem;

/// How many items a chunk has.
const CHUNK: usize = 128;

/// How many chunks a list has at most, so that its items can be counted.
const MOST_CHUNKS: usize = 0xFFFF_FFFF;

/// A list whose copies share its items but the last ones: a copy takes a step for each chunk of 128 items, and a
/// change of an item copies one chunk. It has at most 2^39 items. Contracts see them in order.
#[derive(Debug, Drop)]
pub struct SharedList<T> {
    /// Chunks of 128 items each.
    chunks: Vec<Shared<List<T>>>,
    /// The items behind those, at most 128.
    last: Vec<T>,
}

impl<T> Model for SharedList<T> {
    ghost use Rattle.std.specs.Prelude.{◌++◌, List as ListOf};
    ghost use Rattle.shared_lists.specs.Chunks.{joined, AreChunks};

    ghost Value = { ListOf T };

    ghost view = { λ a. joined a.chunks.items ++ a.last.items };

    ghost invariant = { λ a. AreChunks a.chunks.items a.last.items };
}

/// The item at a place from 0, or None past the last.
fn item_of<T>(items: &[T], place: usize) -> Option<&T>
    ensures { option_copied result ≡ slice_get items.now place }
{
    items.get(place)
}

/// Copies of items.
fn copies<T: Duplicate>(alloc: Global, items: &[T]) -> Result<Vec<T>, AllocError>
    ensures { IfOk result (λ copies. copies.items ≡ items.now) }
{
    let mut copies = List::new(alloc);
    for item in items {
        let item = item.duplicate(alloc)?;
        copies.add(item)?;
    }
    Ok(copies.into_vec())
}

/// A chunk with an item in place of the one at a place from 0.
fn changed<T: Duplicate>(
    alloc: Global,
    chunk: &Shared<List<T>>,
    place: usize,
    item: T,
) -> Result<Shared<List<T>>, AllocError>
    requires { place < length chunk.now }
    ensures { IfOk result (λ new. new ≡ slice_set chunk.now place item) }
{
    let mut items = chunk.get().copy(alloc)?.into_vec();
    items[place] = item;
    Shared::new(alloc, List::from_vec(items))
}

impl<T> SharedList<T> {
    /// The empty list. It takes no memory.
    pub fn new(alloc: Global) -> SharedList<T>
        ensures { result ≡ [] }
    {
        SharedList {
            chunks: Vec::new(alloc),
            last: Vec::new(alloc),
        }
    }

    /// How many items there are.
    pub fn len(&self) -> usize
        ensures { result ≡ length self.now }
    {
        CHUNK * self.chunks.len() + self.last.len()
    }

    /// The item at a place from 0, or None past the last.
    pub fn get(&self, place: usize) -> Option<&T>
        ensures { option_copied result ≡ slice_get self.now place }
    {
        let chunk = place / CHUNK;
        if chunk < self.chunks.len() {
            self.chunks[chunk].get().get(place % CHUNK)
        } else {
            item_of(self.last.as_slice(), place - CHUNK * self.chunks.len())
        }
    }
}

impl<T> SharedList<T> {
    /// The item at a place from 0.
    #[tactic(auto, using(crate::proofs::ChunkLaws::found_item, crate::proofs::ChunkLaws::never_missing))]
    pub fn at(&self, place: usize) -> &T
        requires { place < length self.now }
        ensures { result.now ≡ slice_index_or self.now place result.now }
    {
        match self.get(place) {
            Some(item) => item,
            None => unreachable!(),
        }
    }
}

/// Makes the last items a chunk more. Where that can't be, all stays as it is.
fn close<T: Drop>(
    alloc: Global,
    chunks: &mut Vec<Shared<List<T>>>,
    last: &mut Vec<T>,
) -> Result<(), AllocError>
    ensures chunks { OnOk result (chunks.new.items ≡ chunks.old.items ++ last.old.items ∷ []) }
    ensures last { OnOk result (last.new.items ≡ []) }
    ensures same_chunks { OnErr result (chunks.new.items ≡ chunks.old.items) }
    ensures same_last { OnErr result (last.new.items ≡ last.old.items) }
{
    chunks.reserve(1)?;
    let items = mem::replace(last, Vec::new(alloc));
    match Shared::new_or_back(alloc, List::from_vec(items)) {
        Ok(chunk) => {
            chunks.push(chunk)?;
            Ok(())
        }
        Err(items) => {
            *last = items.into_vec();
            Err(AllocError)
        }
    }
}

/// Makes room for an item behind the chunks. The items stay, whatever the answer.
fn make_room<T: Drop>(
    alloc: Global,
    chunks: &mut Vec<Shared<List<T>>>,
    last: &mut Vec<T>,
) -> Result<(), AllocError>
    requires { AreChunks chunks.old.items last.old.items }
    ensures same { joined chunks.new.items ++ last.new.items ≡ joined chunks.old.items ++ last.old.items }
    ensures are_chunks { AreChunks chunks.new.items last.new.items }
    ensures room { OnOk result (length last.new.items < 128) }
{
    if last.len() < CHUNK {
        return Ok(());
    }
    if chunks.len() >= MOST_CHUNKS {
        return Err(AllocError);
    }
    close(alloc, chunks, last)
}

impl<T: Drop> SharedList<T> {
    /// Adds an item at the end.
    ///
    /// The error comes where there is no memory, or 2^39 items stand. The list is unchanged then, and the item dropped.
    pub fn add(&mut self, alloc: Global, item: T) -> Result<(), AllocError>
        ensures ok { OnOk result (self.new ≡ self.old ++ item ∷ []) }
        ensures err { OnErr result (self.new ≡ self.old) }
    {
        make_room(alloc, &mut self.chunks, &mut self.last)?;
        self.last.push(item)?;
        Ok(())
    }

    /// The list of these items, which are moved.
    ///
    /// The error comes where there is no memory.
    pub fn from_list(alloc: Global, items: List<T>) -> Result<SharedList<T>, AllocError>
        ensures { IfOk result (λ shared. shared ≡ items) }
    {
        let mut shared = SharedList::new(alloc);
        for item in items.into_vec() {
            shared.add(alloc, item)?;
        }
        Ok(shared)
    }
}

impl<T: Duplicate> SharedList<T> {
    /// Puts an item in place of the one at a place from 0.
    ///
    /// The error comes where there is no memory. The list is unchanged then.
    pub fn set(&mut self, alloc: Global, place: usize, item: T) -> Result<(), AllocError>
        requires { place < length self.old }
        ensures ok { OnOk result (self.new ≡ slice_set self.old place item) }
        ensures err { OnErr result (self.new ≡ self.old) }
    {
        let chunk = place / CHUNK;
        if chunk < self.chunks.len() {
            self.chunks[chunk] = changed(alloc, &self.chunks[chunk], place % CHUNK, item)?;
        } else {
            let behind = place - CHUNK * self.chunks.len();
            self.last[behind] = item;
        }
        Ok(())
    }

    /// An equal list, which shares its chunks.
    ///
    /// The error comes where there is no memory.
    pub fn copy(&self, alloc: Global) -> Result<SharedList<T>, AllocError>
        ensures { IfOk result (λ copy. copy ≡ self.now) }
    {
        let chunks = copies(alloc, self.chunks.as_slice())?;
        let last = copies(alloc, self.last.as_slice())?;
        Ok(SharedList { chunks, last })
    }

    /// Copies of the items, in memory of their own.
    ///
    /// The error comes where there is no memory.
    pub fn to_list(&self, alloc: Global) -> Result<List<T>, AllocError>
        ensures { IfOk result (λ list. list ≡ self.now) }
    {
        let mut list = List::new(alloc);
        for place in 0..self.len() {
            list.add(self.at(place).duplicate(alloc)?)?;
        }
        Ok(list)
    }
}

impl<T: Duplicate> Duplicate for SharedList<T> {
    fn duplicate(&self, alloc: Global) -> Result<SharedList<T>, AllocError> {
        self.copy(alloc)
    }
}
