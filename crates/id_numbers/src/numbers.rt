ghost use Rattle.std.specs.Prelude.{◌≡◌, ℕ, List, ◌==◌, ◌&&◌, if◌then◌else◌, IfOk, OnOk, OnErr};
ghost use Rattle.std.specs.BTreeMap.{get};
ghost use Rattle.std.specs.Ordering.{nat_cmp};
ghost use Rattle.std.specs.Str.{bytes_eq};
ghost use Rattle.id_numbers.specs.Mix.{mix_of};
ghost use Rattle.id_numbers.specs.Numbers.{mapped_number, number_here};

use std::alloc::{AllocError, Global};
use std::collections::BTreeMap;

/// What a mix is multiplied by for each byte: an odd number, so that no two mixes become one.
const FACTOR: u64 = 0x0000_0100_0000_01b3;

/// A number that differs for most ids.
#[tactic(auto, unfolding(crate::specs::Mix::mix_of))]
fn mixed(id: &[u8]) -> u64
    ensures { result ≡ mix_of id.now }
{
    let mut mix = 0u64;
    for byte in id {
        mix = mix.wrapping_mul(FACTOR) ^ u64::from(*byte);
    }
    mix
}

/// An id, and its number.
#[derive(Debug, Clone, Drop)]
pub(crate) struct MixedId {
    id: Vec<u8>,
    number: u32,
}

/// A number of each id. Ids share long fronts, so an id is looked up by a mix of its bytes: numbers are compared, and
/// one id. Ids whose mix another id has stand in a map of their own, so that a look-up takes no more than the logarithm
/// of their count, whoever chose them.
#[derive(Debug, Drop)]
pub struct IdNumbers {
    /// The first id of each mix.
    firsts: BTreeMap<u64, MixedId>,
    /// The ids whose mix another had before.
    others: BTreeMap<Vec<u8>, u32>,
}

impl IdNumbers {
    /// No numbers. It takes no memory.
    #[tactic(auto, unfolding(crate::specs::Numbers::mapped_number))]
    pub fn new(alloc: Global) -> IdNumbers
        ensures { (id : List ℕ) → mapped_number result id ≡ 0 }
    {
        IdNumbers {
            firsts: BTreeMap::new(alloc),
            others: BTreeMap::new(alloc),
        }
    }

    /// The number of an id among the first ids of their mixes, or 0.
    fn first_number(&self, id: &[u8]) -> u32
        ensures { result ≡ number_here id.now (get nat_cmp self.now.firsts (mix_of id.now)) }
    {
        match self.firsts.get(&mixed(id)) {
            None => 0,
            Some(first) => {
                if first.id.as_slice() == id {
                    first.number
                } else {
                    0
                }
            }
        }
    }

    /// The number of an id, or 0 where it has none. It takes no memory.
    #[tactic(auto, unfolding(crate::specs::Numbers::mapped_number))]
    pub fn number(&self, id: &[u8]) -> u32
        ensures { result ≡ mapped_number self.now id.now }
    {
        let number = self.others.get(id).copied().unwrap_or(0);
        if number != 0 {
            return number;
        }
        self.first_number(id)
    }

    /// Puts the number of an id whose mix another id has.
    #[tactic(auto, unfolding(crate::specs::Numbers::mapped_number))]
    fn put_other(&mut self, alloc: Global, id: &[u8], number: u32) -> Result<(), AllocError>
        requires { mapped_number self.old id.now ≡ 0 }
        ensures ok { OnOk result ((other : List ℕ) → mapped_number self.new other ≡ (if bytes_eq id.now other then number else mapped_number self.old other)) }
        ensures err { OnErr result ((other : List ℕ) → mapped_number self.new other ≡ mapped_number self.old other) }
    {
        let key = Vec::from_slice(alloc, id)?;
        self.others.insert(key, number)?;
        Ok(())
    }

    /// Puts the number of an id where no id has its mix yet, and answers whether it did.
    #[tactic(auto, unfolding(crate::specs::Numbers::mapped_number))]
    fn put_first(&mut self, alloc: Global, id: &[u8], number: u32) -> Result<bool, AllocError>
        ensures ok { IfOk result (λ put. (other : List ℕ) → mapped_number self.new other ≡ (if put && (mapped_number self.old other == 0 && bytes_eq id.now other) then number else mapped_number self.old other)) }
        ensures err { OnErr result ((other : List ℕ) → mapped_number self.new other ≡ mapped_number self.old other) }
    {
        let mix = mixed(id);
        let first = MixedId {
            id: Vec::from_slice(alloc, id)?,
            number,
        };
        match self.firsts.insert(mix, first)? {
            None => Ok(true),
            Some(before) => {
                self.firsts.insert(mix, before)?;
                Ok(false)
            }
        }
    }

    /// Gives an id a number, unless it has one. Most ids have none, so that one is put before it is known.
    ///
    /// The error comes where there is no memory. Each id has the number then that it had before.
    pub fn add(&mut self, alloc: Global, id: &[u8], number: u32) -> Result<(), AllocError>
        ensures ok { OnOk result ((other : List ℕ) → mapped_number self.new other ≡ (if mapped_number self.old other == 0 && bytes_eq id.now other then number else mapped_number self.old other)) }
        ensures err { OnErr result ((other : List ℕ) → mapped_number self.new other ≡ mapped_number self.old other) }
    {
        if self.put_first(alloc, id, number)? || self.number(id) != 0 {
            return Ok(());
        }
        self.put_other(alloc, id, number)
    }

    /// The same numbers.
    ///
    /// The error comes where there is no memory.
    pub fn copy(&self) -> Result<IdNumbers, AllocError>
        ensures { IfOk result (λ copy. (id : List ℕ) → mapped_number copy id ≡ mapped_number self.now id) }
    {
        Ok(IdNumbers {
            firsts: self.firsts.clone()?,
            others: self.others.clone()?,
        })
    }
}
