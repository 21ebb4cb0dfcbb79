ghost use Rattle.std.specs.Prelude.{◌≡◌, ◌↔◌, ◌<◌, ◌≤◌, ◌+◌, length, IsTrue};
ghost use Rattle.board_layout.specs.Valid.{IsBoard};
ghost use Rattle.board_layout.specs.jam_base.Slots.{has_live};
ghost use Rattle.jam_layout.specs.Conference.{is_live as is_live_of};
ghost use Rattle.jam_layout.specs.Limits.{slot_limit};
ghost use Rattle.slot_changes.specs.Changed.{appended as appended_of, deleted as deleted_of, HasMessage};

use crate::size::size_with_messages;
use crate::value::may_hold_all;
use board_layout::{BOARD_LIMIT, Base, StoredBoard};
use jam_layout::SLOT_LIMIT;
use jam_records::{Messages, Slot};

/// Whether so many slots more may stand in a base.
fn has_slots(base: &Base, count: usize) -> bool
    ensures { IsTrue result ↔ (length base.now.conference.slots + count ≤ slot_limit) }
{
    (base.slot_count() as usize).saturating_add(count) <= SLOT_LIMIT
}

/// Whether the board is valid once messages are appended in a place that is there.
fn fits_in_place(board: &StoredBoard, place: u8, messages: &Messages) -> bool
    requires { place < length board.now.conferences }
    ensures { IsTrue result ↔ IsBoard (appended_of place messages.now board.now) }
{
    let kind = board.conference_of(place).kind;
    if !has_slots(board.base_of(place), messages.len()) {
        return false;
    }
    if !may_hold_all(kind, messages.as_slice()) {
        return false;
    }
    size_with_messages(board, place, messages) <= BOARD_LIMIT
}

/// Whether a place is there, and the board is valid once messages are appended in it, each with the msgid that is
/// generated for its number, where it has none. It takes no memory.
pub fn fits_messages(board: &StoredBoard, place: u8, messages: &Messages) -> bool
    ensures { IsTrue result ↔ ((place < length board.now.conferences) × IsBoard (appended_of place messages.now board.now)) }
{
    usize::from(place) < board.bases().len() && fits_in_place(board, place, messages)
}

/// Whether a slot holds a message that isn't deleted.
fn is_live(slot: &Slot) -> bool
    ensures { result ≡ is_live_of slot.now }
{
    match slot {
        Slot::Gone => false,
        Slot::Held(message) => !message.deleted,
    }
}

/// Whether a message number of a base is that of a message that isn't deleted.
fn has_message(base: &Base, number: u32) -> bool
    ensures { result ≡ has_live number base.now.conference.slots }
{
    match base.slot(number) {
        Some(slot) => is_live(slot),
        None => false,
    }
}

/// Whether the message of a number in a place is there and isn't deleted, and the board is valid once it is
/// deleted. It takes no memory.
pub fn fits_deletion(board: &StoredBoard, place: u8, number: u32) -> bool
    ensures { IsTrue result ↔ (HasMessage place number board.now × IsBoard (deleted_of place number board.now)) }
{
    usize::from(place) < board.bases().len() && has_message(board.base_of(place), number)
}
