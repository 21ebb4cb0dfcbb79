// Slots that may stand in a conference, and how many bytes they take.
ghost use Rattle.std.specs.Prelude.{◌≡◌, ◌↔◌, ◌-◌, ◌<◌, ◌^◌, length, min, All, IsTrue};
ghost use Rattle.board_layout.specs.Layout.{board_size};
ghost use Rattle.jam_layout.specs.Messages.{IsMessage, IsSlot};
ghost use Rattle.jam_layout.specs.Sizes.{slot_size as size_of};
ghost use Rattle.slot_changes.specs.Packed.{replaced, FitsSlots, HasSlots};

use crate::size::message_size;
use crate::value::may_hold;
use board_layout::{BOARD_LIMIT, StoredBoard};
use jam_records::{Kind, Message, Slot, Slots};

/// Whether a conference of this kind may hold a message as it is: it has a msgid, and passes all other tests.
fn holds(kind: Kind, message: &Message) -> bool
    ensures { IsTrue result ↔ IsMessage kind message.now }
{
    if message.msgid.as_slice().is_empty() {
        return false;
    }
    may_hold(kind, message)
}

/// Whether a conference of this kind may have a slot.
fn may_stand(kind: Kind, slot: &Slot) -> bool
    ensures { IsTrue result ↔ IsSlot kind slot.now }
{
    match slot {
        Slot::Gone => true,
        Slot::Held(message) => holds(kind, message),
    }
}

/// Whether it may have each of these slots.
fn may_stand_all(kind: Kind, slots: &[Slot]) -> bool
    ensures { IsTrue result ↔ All (IsSlot kind) slots.now }
{
    for slot in slots {
        if !may_stand(kind, slot) {
            return false;
        }
    }
    true
}

/// How many bytes of a conference's files a slot takes, or 18,446,744,073,709,551,615 where they are more.
fn slot_size(slot: &Slot) -> u64
    ensures { result ≡ min (size_of slot.now) (2 ^ 64 - 1) }
{
    match slot {
        Slot::Gone => 8,
        Slot::Held(message) => message_size(message, 0),
    }
}

/// How many bytes the data files have together once the conference in a place has these slots, or
/// 18,446,744,073,709,551,615 where they are more. It has as many. It takes no memory.
fn size_with_slots(board: &StoredBoard, place: u8, slots: &Slots) -> u64
    requires { HasSlots place (length slots.now) board.now }
    ensures { result ≡ min (board_size (replaced place slots.now board.now)) (2 ^ 64 - 1) }
{
    let base = board.base_of(place);
    let mut size = board.size() - base.size() + 1024 + base.jlr_size();
    for slot in slots.as_slice() {
        size = size.saturating_add(slot_size(slot));
    }
    size
}

/// Whether the board is valid once the conference in a place that is there has these slots, and they are as many as it
/// has.
fn fits_in_place(board: &StoredBoard, place: u8, slots: &Slots) -> bool
    requires { place < length board.now.conferences }
    ensures { IsTrue result ↔ FitsSlots place slots.now board.now }
{
    let kind = board.conference_of(place).kind;
    if slots.as_slice().len() != board.base_of(place).slot_count() as usize {
        return false;
    }
    if !may_stand_all(kind, slots.as_slice()) {
        return false;
    }
    size_with_slots(board, place, slots) <= BOARD_LIMIT
}

/// Whether a place is there, the slots are as many as it has, and the board is valid once it has these. It takes no
/// memory.
pub fn fits_slots(board: &StoredBoard, place: u8, slots: &Slots) -> bool
    ensures { IsTrue result ↔ FitsSlots place slots.now board.now }
{
    usize::from(place) < board.bases().len() && fits_in_place(board, place, slots)
}
