ghost use Rattle.std.specs.Prelude.{◌≡◌, ℕ, List, [], Some, length, fold, ◌==◌, ◌&&◌, if◌then◌else◌, IfOk, OnOk, OnErr};
ghost use Rattle.std.specs.Str.{bytes_eq};
ghost use Rattle.jam_threads.specs.FirstNumbers.{kept_number, number_or, older_number as number_among};
ghost use Rattle.id_numbers.specs.Numbers.{mapped_number};

use id_numbers::IdNumbers;
use jam_records::{Bytes, Duplicate, List as Items};
use shared_lists::Shared;
use std::alloc::{AllocError, Global};

/// How many ids a copy copies at most. When there are more, they come to the older ones, which copies share.
const NEWER_LIMIT: usize = 64;

/// An id, and the number of its first message.
#[derive(Debug, Drop)]
pub(crate) struct IdNumber {
    id: Shared<Bytes>,
    number: u32,
}

impl Duplicate for IdNumber {
    fn duplicate(&self, _alloc: Global) -> Result<IdNumber, AllocError> {
        Ok(IdNumber {
            id: self.id.share()?,
            number: self.number,
        })
    }
}

/// The number of the first message of each id. Copies share all but the ids that were added last.
#[derive(Debug, Drop)]
pub(crate) struct FirstNumbers {
    /// Those of the older ids.
    older: Option<Shared<IdNumbers>>,
    /// The ids that were added last, in order.
    newer: Items<IdNumber>,
}

/// The number of an id among the older ones, or 0.
fn older_number(older: &Option<Shared<IdNumbers>>, id: &[u8]) -> u32
    ensures { result ≡ number_among older.now id.now }
{
    match older {
        None => 0,
        Some(numbers) => numbers.get().number(id),
    }
}

/// What was found for an id, or else the number of one id more, where that is the same.
fn number_with(found: u32, one: &IdNumber, id: &[u8]) -> u32
    ensures { result ≡ number_or id.now found one.now }
{
    if found == 0 && one.id.get().as_slice() == id {
        one.number
    } else {
        found
    }
}

/// What was found for an id, or else its number among newer ones, or 0.
fn newer_number(found: u32, newer: &[IdNumber], id: &[u8]) -> u32
    ensures { result ≡ fold (number_or id.now) found newer.now }
{
    let mut number = found;
    for one in newer {
        number = number_with(number, one, id);
    }
    number
}

/// Puts newer ids among older ones.
fn add_all(alloc: Global, numbers: &mut IdNumbers, newer: &[IdNumber]) -> Result<(), AllocError>
    ensures ok { OnOk result ((id : List ℕ) → mapped_number numbers.new id ≡ fold (number_or id) (mapped_number numbers.old id) newer.now) }
    ensures err { OnErr result ((id : List ℕ) → fold (number_or id) (mapped_number numbers.new id) newer.now ≡ fold (number_or id) (mapped_number numbers.old id) newer.now) }
{
    for one in newer {
        numbers.add(alloc, one.id.get().as_slice(), one.number)?;
    }
    Ok(())
}

/// Puts newer ids among the older ones where no copy shares these, and answers whether it did.
fn add_all_here(
    alloc: Global,
    older: &mut Option<Shared<IdNumbers>>,
    newer: &[IdNumber],
) -> Result<bool, AllocError>
    ensures ok { IfOk result (λ here. (id : List ℕ) → number_among older.new id ≡ (if here then fold (number_or id) (number_among older.old id) newer.now else number_among older.old id)) }
    ensures err { OnErr result ((id : List ℕ) → fold (number_or id) (number_among older.new id) newer.now ≡ fold (number_or id) (number_among older.old id) newer.now) }
{
    let Some(shared) = older else {
        return Ok(false);
    };
    let Some(numbers) = shared.value_mut() else {
        return Ok(false);
    };
    add_all(alloc, numbers, newer)?;
    Ok(true)
}

/// Puts an id among the older ones where no copy shares these, and answers whether it did.
fn add_here(
    alloc: Global,
    older: &mut Option<Shared<IdNumbers>>,
    id: &[u8],
    number: u32,
) -> Result<bool, AllocError>
    ensures ok { IfOk result (λ here. (other : List ℕ) → number_among older.new other ≡ (if here && (number_among older.old other == 0 && bytes_eq id.now other) then number else number_among older.old other)) }
    ensures err { OnErr result ((other : List ℕ) → number_among older.new other ≡ number_among older.old other) }
{
    let Some(shared) = older else {
        return Ok(false);
    };
    let Some(numbers) = shared.value_mut() else {
        return Ok(false);
    };
    numbers.add(alloc, id, number)?;
    Ok(true)
}

/// A map of the older ids of its own.
fn copied(alloc: Global, older: &Option<Shared<IdNumbers>>) -> Result<IdNumbers, AllocError>
    ensures { IfOk result (λ numbers. (id : List ℕ) → mapped_number numbers id ≡ number_among older.now id) }
{
    match older {
        None => Ok(IdNumbers::new(alloc)),
        Some(shared) => shared.get().copy(),
    }
}

/// A map of the older ids and the newer ones of its own.
fn together(
    alloc: Global,
    older: &Option<Shared<IdNumbers>>,
    newer: &[IdNumber],
) -> Result<Shared<IdNumbers>, AllocError>
    ensures { IfOk result (λ numbers. (id : List ℕ) → mapped_number numbers id ≡ fold (number_or id) (number_among older.now id) newer.now) }
{
    let mut numbers = copied(alloc, older)?;
    add_all(alloc, &mut numbers, newer)?;
    Shared::new(alloc, numbers)
}

/// Sees to it that there is a map of the older ids.
fn begin(alloc: Global, older: &mut Option<Shared<IdNumbers>>) -> Result<(), AllocError>
    ensures { (id : List ℕ) → number_among older.new id ≡ number_among older.old id }
{
    if older.is_none() {
        *older = Some(Shared::new(alloc, IdNumbers::new(alloc))?);
    }
    Ok(())
}

impl FirstNumbers {
    /// No numbers. It takes no memory.
    #[tactic(auto, unfolding(crate::specs::FirstNumbers::kept_number))]
    pub(crate) fn new(alloc: Global) -> FirstNumbers
        ensures { (id : List ℕ) → kept_number result id ≡ 0 }
    {
        FirstNumbers {
            older: None,
            newer: Items::new(alloc),
        }
    }

    /// The number of the first message of an id, or 0.
    #[tactic(auto, unfolding(crate::specs::FirstNumbers::kept_number))]
    fn number(&self, id: &[u8]) -> u32
        ensures { result ≡ kept_number self.now id.now }
    {
        newer_number(older_number(&self.older, id), self.newer.as_slice(), id)
    }

    /// The original of a message that answers this id and stands behind the others, or 0.
    pub(crate) fn original(&self, replyid: &[u8]) -> u32
        ensures { result ≡ (if length replyid.now == 0 then 0 else kept_number self.now replyid.now) }
    {
        if replyid.is_empty() {
            return 0;
        }
        self.number(replyid)
    }

    /// Makes the newer ids older ones. Each id keeps its number, whatever the answer.
    #[tactic(auto, unfolding(crate::specs::FirstNumbers::kept_number))]
    fn settle(&mut self, alloc: Global) -> Result<(), AllocError>
        ensures { (id : List ℕ) → kept_number self.new id ≡ kept_number self.old id }
    {
        if !add_all_here(alloc, &mut self.older, self.newer.as_slice())? {
            self.older = Some(together(alloc, &self.older, self.newer.as_slice())?);
        }
        self.newer = Items::new(alloc);
        Ok(())
    }

    /// Makes the newer ids older ones, where there are many. Each id keeps its number, whatever the answer.
    fn make_room(&mut self, alloc: Global) -> Result<(), AllocError>
        ensures { (id : List ℕ) → kept_number self.new id ≡ kept_number self.old id }
    {
        if self.newer.len() < NEWER_LIMIT {
            return Ok(());
        }
        self.settle(alloc)
    }

    /// Adds an id that isn't there behind the others.
    fn push(&mut self, alloc: Global, id: &[u8], number: u32) -> Result<(), AllocError>
        ensures ok { OnOk result ((other : List ℕ) → kept_number self.new other ≡ (if kept_number self.old other == 0 && bytes_eq id.now other then number else kept_number self.old other)) }
        ensures err { OnErr result ((other : List ℕ) → kept_number self.new other ≡ kept_number self.old other) }
    {
        let id = Shared::new(alloc, Bytes::from_slice(alloc, id)?)?;
        self.newer.add(IdNumber { id, number })
    }

    /// Adds a message behind the others to the newer ids.
    fn add_newer(&mut self, alloc: Global, id: &[u8], number: u32) -> Result<(), AllocError>
        ensures ok { OnOk result ((other : List ℕ) → kept_number self.new other ≡ (if kept_number self.old other == 0 && bytes_eq id.now other then number else kept_number self.old other)) }
        ensures err { OnErr result ((other : List ℕ) → kept_number self.new other ≡ kept_number self.old other) }
    {
        if self.number(id) != 0 {
            return Ok(());
        }
        self.push(alloc, id, number)
    }

    /// Adds a message behind the others where there are no newer ids: to the older ones, where no copy shares these.
    #[tactic(auto, unfolding(crate::specs::FirstNumbers::kept_number))]
    fn add_older(&mut self, alloc: Global, id: &[u8], number: u32) -> Result<(), AllocError>
        requires { self.old.newer ≡ [] }
        ensures ok { OnOk result ((other : List ℕ) → kept_number self.new other ≡ (if kept_number self.old other == 0 && bytes_eq id.now other then number else kept_number self.old other)) }
        ensures err { OnErr result ((other : List ℕ) → kept_number self.new other ≡ kept_number self.old other) }
    {
        begin(alloc, &mut self.older)?;
        if add_here(alloc, &mut self.older, id, number)? {
            return Ok(());
        }
        self.add_newer(alloc, id, number)
    }

    /// Adds a message behind the others.
    ///
    /// The error comes where there is no memory. Each id has the number then that it had before.
    pub(crate) fn add(&mut self, alloc: Global, id: &[u8], number: u32) -> Result<(), AllocError>
        ensures ok { OnOk result ((other : List ℕ) → kept_number self.new other ≡ (if kept_number self.old other == 0 && bytes_eq id.now other then number else kept_number self.old other)) }
        ensures err { OnErr result ((other : List ℕ) → kept_number self.new other ≡ kept_number self.old other) }
    {
        self.make_room(alloc)?;
        if self.newer.len() == 0 {
            self.add_older(alloc, id, number)
        } else {
            self.add_newer(alloc, id, number)
        }
    }

    /// The same numbers.
    #[tactic(auto, unfolding(crate::specs::FirstNumbers::kept_number))]
    pub(crate) fn copy(&self, alloc: Global) -> Result<FirstNumbers, AllocError>
        ensures { IfOk result (λ copy. (id : List ℕ) → kept_number copy id ≡ kept_number self.now id) }
    {
        Ok(FirstNumbers {
            older: self.older.duplicate(alloc)?,
            newer: self.newer.copy(alloc)?,
        })
    }
}
