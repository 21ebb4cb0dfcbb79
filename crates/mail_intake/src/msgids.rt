ghost use Rattle.std.specs.Prelude.{◌≡◌, ◌||◌, ℕ, List, false, OnOk};
ghost use Rattle.std.specs.Str.{bytes_eq};
ghost use Rattle.mail_intake.specs.Msgids.{has_id};

use id_numbers::IdNumbers;
use std::alloc::{AllocError, Global};

/// The number of each msgid that is one of them.
const THERE: u32 = 1;

/// Msgids that are looked up.
#[derive(Debug, Drop)]
pub struct MsgidSet {
    ids: IdNumbers,
}

impl MsgidSet {
    /// No msgids. It takes no memory.
    #[tactic(auto, unfolding(crate::specs::Msgids::has_id))]
    pub fn new(alloc: Global) -> MsgidSet
        ensures { (id : List ℕ) → has_id result id ≡ false }
    {
        MsgidSet {
            ids: IdNumbers::new(alloc),
        }
    }

    /// Whether a msgid is one of them. It takes no memory.
    #[tactic(auto, unfolding(crate::specs::Msgids::has_id))]
    pub fn has(&self, id: &[u8]) -> bool
        ensures { result ≡ has_id self.now id.now }
    {
        self.ids.number(id) != 0
    }

    /// Adds a msgid. Where there is no memory for it, nothing is said of which they are then.
    #[tactic(auto, unfolding(crate::specs::Msgids::has_id))]
    pub fn add(&mut self, alloc: Global, id: &[u8]) -> Result<(), AllocError>
        ensures { OnOk result ((other : List ℕ) → has_id self.new other ≡ (bytes_eq id.now other || has_id self.old other)) }
    {
        self.ids.add(alloc, id, THERE)
    }
}
