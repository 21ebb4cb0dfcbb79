// Which messages give their room back.
ghost use Rattle.std.specs.Prelude.{◌≡◌, if◌then◌else◌};
ghost use Rattle.board_layout.specs.jam_base.Slots.{numbered};
ghost use Rattle.slot_changes.specs.Packed.{deleted_count as count_of, is_deleted as deleted_in, packed_count as packed_count_of};

use board_layout::{Base, StoredBoard, message_of};

/// Whether the slot of a number holds a deleted message.
pub(crate) fn is_deleted(base: &Base, number: u32) -> bool
    ensures { result ≡ deleted_in (numbered base.now.conference.slots number) }
{
    match message_of(base, number) {
        Some(message) => message.deleted,
        None => false,
    }
}

/// How many deleted messages it holds.
fn one_deleted(base: &Base, number: u32) -> u32
    ensures { result ≡ if deleted_in (numbered base.now.conference.slots number) then 1 else 0 }
{
    if is_deleted(base, number) { 1 } else { 0 }
}

/// How many slots of a base hold deleted messages. It takes no memory.
fn deleted_count(base: &Base) -> u32
    ensures { result ≡ count_of base.now.conference.slots }
{
    let mut count = 0;
    for before in 0..base.slot_count() {
        count += one_deleted(base, before + 1);
    }
    count
}

/// How many slots of the conference in a place become Gone, none where no conference is there. It takes no memory.
pub(crate) fn packed_count(board: &StoredBoard, place: u8) -> u32
    ensures { result ≡ packed_count_of place board.now }
{
    match board.base_at(place) {
        Some(base) => deleted_count(base),
        None => 0,
    }
}
