ghost use Rattle.std.specs.Prelude.{◌≡◌, ◌-◌, List as ListOf, [], ◌∷◌, ◌++◌, length, replicate, slice_get, IfOk, OnOk, OnErr};
ghost use Rattle.std.specs.Option.{option_copied};

use crate::copies::Duplicate;
use std::alloc::{AllocError, Global};
use std::marker::Model;

/// A list that grows at its end. Contracts see the items in order.
#[derive(Debug, Drop)]
pub struct List<T> {
    items: Vec<T>,
}

impl<T> Model for List<T> {
    ghost Value = { ListOf T };

    ghost view = { λ a. a.items.items };
}

impl<T> List<T> {
    /// The empty list. It takes no memory.
    pub fn new(alloc: Global) -> List<T>
        ensures { result ≡ [] }
    {
        List {
            items: Vec::new(alloc),
        }
    }

    /// The list of these items, which are not copied.
    pub fn from_vec(items: Vec<T>) -> List<T>
        ensures { result ≡ items.items }
    {
        List { items }
    }

    /// Its items, which are not copied.
    pub fn into_vec(self) -> Vec<T>
        ensures { result.items ≡ self }
    {
        self.items
    }

    /// How many items there are.
    pub fn len(&self) -> usize
        ensures { result ≡ length self.now }
    {
        self.items.len()
    }

    /// The item at a place from 0, or None past the last.
    pub fn get(&self, place: usize) -> Option<&T>
        ensures { option_copied result ≡ slice_get self.now place }
    {
        self.items.get(place)
    }

    /// The items.
    pub fn as_slice(&self) -> &[T]
        ensures { result.now ≡ self.now }
    {
        self.items.as_slice()
    }
}

impl<T: Drop> List<T> {
    /// Adds an item at the end. Where there is no memory, the list is unchanged and the item dropped.
    pub fn add(&mut self, item: T) -> Result<(), AllocError>
        ensures ok { OnOk result (self.new ≡ self.old ++ item ∷ []) }
        ensures err { OnErr result (self.new ≡ self.old) }
    {
        self.items.push(item)?;
        Ok(())
    }
}

impl<T: Duplicate> List<T> {
    /// Adds copies of an item at the end until there are so many items. Where there is no memory for all,
    /// some of them were added.
    #[tactic(auto, using(crate::proofs::Filling::fill_more, crate::proofs::Filling::fill_done))]
    pub fn fill(&mut self, alloc: Global, item: &T, count: usize) -> Result<(), AllocError>
        ensures { OnOk result (self.new ≡ self.old ++ replicate (count - length self.old) item.now) }
    {
        while self.len() < count {
            self.add(item.duplicate(alloc)?)?;
        }
        Ok(())
    }

    /// An equal list, in memory of its own. The error comes where there is no memory.
    pub fn copy(&self, alloc: Global) -> Result<List<T>, AllocError>
        ensures { IfOk result (λ copy. copy ≡ self.now) }
    {
        let mut copy = List::new(alloc);
        for item in self.items.as_slice() {
            let item = item.duplicate(alloc)?;
            copy.add(item)?;
        }
        Ok(copy)
    }
}

impl<T: Duplicate> Duplicate for List<T> {
    fn duplicate(&self, alloc: Global) -> Result<List<T>, AllocError> {
        self.copy(alloc)
    }
}
