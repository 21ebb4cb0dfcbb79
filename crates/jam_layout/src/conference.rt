ghost use Rattle.std.specs.Prelude.{◌≡◌};
ghost use Rattle.jam_layout.specs.Conference.{is_live as is_live_slot, live_count};

use jam_records::{Duplicate, List, Slot, Slots};
use std::alloc::{AllocError, Global};

/// How many slots a conference may have.
pub const SLOT_LIMIT: usize = 9999;

/// What a conference holds.
#[derive(Debug, Drop)]
pub struct ConferenceContents {
    /// How often it was changed, up to 4,294,967,295 (ModCounter).
    pub counter: u32,
    /// Its slots. The one in place i, from 0, has the message number i + 1.
    pub slots: Slots,
    /// The last-read pointers of its readers, in the order of the readers: each a message number, or 0.
    pub pointers: List<u32>,
}

/// Whether a slot holds a message that isn't deleted.
fn is_live(slot: &Slot) -> bool
    ensures { result ≡ is_live_slot slot.now }
{
    match slot {
        Slot::Gone => false,
        Slot::Held(message) => !message.deleted,
    }
}

impl ConferenceContents {
    /// How many messages aren't deleted.
    pub fn live_count(&self) -> usize
        ensures { result ≡ live_count self.now.slots }
    {
        self.slots
            .as_slice()
            .iter()
            .filter(|slot| is_live(slot))
            .count()
    }
}

impl Duplicate for ConferenceContents {
    fn duplicate(&self, alloc: Global) -> Result<ConferenceContents, AllocError> {
        Ok(ConferenceContents {
            counter: self.counter,
            slots: self.slots.copy(alloc)?,
            pointers: self.pointers.copy(alloc)?,
        })
    }
}
