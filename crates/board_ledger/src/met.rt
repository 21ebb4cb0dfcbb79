ghost use Rattle.std.specs.Prelude.{◌≡◌, ◌||◌, ℕ, List, false, IfOk, OnOk};
ghost use Rattle.std.specs.Str.{bytes_eq};
ghost use Rattle.board_ledger.specs.Met.{is_met};

use std::alloc::{AllocError, Global};
use std::collections::BTreeSet;

/// The keys of the records that were read, of which each may stand once.
#[derive(Drop)]
pub(crate) struct Met {
    keys: BTreeSet<Vec<u8>>,
}

impl Met {
    /// No keys. It takes no memory.
    #[tactic(auto, unfolding(crate::specs::Met::is_met))]
    pub(crate) fn new(alloc: Global) -> Met
        ensures { (key : List ℕ) → is_met result key ≡ false }
    {
        Met {
            keys: BTreeSet::new(alloc),
        }
    }

    /// Adds a key, and answers whether it was there before.
    pub(crate) fn add(&mut self, alloc: Global, key: &[u8]) -> Result<bool, AllocError>
        ensures before { IfOk result (λ before. before ≡ is_met self.old key.now) }
        ensures added { OnOk result ((other : List ℕ) → is_met self.new other ≡ (bytes_eq key.now other || is_met self.old other)) }
    {
        let added = self.keys.insert(Vec::from_slice(alloc, key)?)?;
        Ok(!added)
    }
}
