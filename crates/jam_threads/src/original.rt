ghost use Rattle.std.specs.Prelude.{◌≡◌, ◌+◌, ◌<◌, ◌^◌, length, position, IfSome};
ghost use Rattle.jam_threads.specs.Children.{has_msgid as has_id, original_behind};

use jam_records::{Slot, Slots};

/// Whether the slot holds a message of this id.
fn has_msgid(id: &[u8], slot: &Slot) -> bool
    ensures { result ≡ has_id id.now slot.now }
{
    match slot {
        Slot::Gone => false,
        Slot::Held(message) => message.msgid.as_slice() == id,
    }
}

/// The place of the first message of this id.
fn first_place(id: &[u8], slots: &[Slot]) -> Option<usize>
    ensures place { result ≡ position (has_id id.now) slots.now }
    ensures within { IfSome result (λ place. place < length slots.now) }
{
    slots.iter().position(|slot| has_msgid(id, slot))
}

/// The original of a message that is appended next and answers this id: the smallest number of a message
/// of that id, and 0 where the id is empty or no message has it. There are fewer than 4,294,967,295 slots. It takes no
/// memory. For callers of the library; the program doesn't call it.
#[tactic(auto, using(crate::proofs::ChildrenLemmas::original_behind_some))]
pub fn original_of(slots: &Slots, replyid: &[u8]) -> u32
    requires { length slots.now + 1 < 2 ^ 32 }
    ensures { result ≡ original_behind slots.now replyid.now }
{
    if replyid.is_empty() {
        return 0;
    }
    match first_place(replyid, slots.as_slice()) {
        Some(place) => place as u32 + 1,
        None => 0,
    }
}
