// What is looked up in a board for a message.
ghost use Rattle.std.specs.Prelude.{◌≡◌, ◌<◌, length, IfSome};
ghost use Rattle.std.specs.Option.{option_copied};
ghost use Rattle.board_layout.specs.Lookups.{held_in, slots_in};
ghost use Rattle.board_layout.specs.jam_base.Slots.{numbered};
ghost use Rattle.board_layout.specs.jam_layout.Outlines.{slot_bare};
ghost use Rattle.packet_verdicts.specs.Views.{addressed_place as place_in};

use board_layout::{StoredBoard, message_of};
use jam_records::Message;

/// The place of the conference of a number, or None where there is no number or no conference has it.
pub(crate) fn place_of(board: &StoredBoard, number: Option<u32>) -> Option<u8>
    ensures place { result ≡ place_in number board.now }
    ensures within { IfSome result (λ place. place < length board.now.ledger.setup.conferences) }
{
    board.place_of(number?)
}

/// The message of a number in a place of the board, with an empty body, or None where no slot of it holds one.
pub(crate) fn message_at(board: &StoredBoard, place: u8, number: u32) -> Option<&Message>
    ensures { option_copied result ≡ held_in (slot_bare (numbered (slots_in board.now place) number)) }
{
    message_of(board.base_at(place)?, number)
}
