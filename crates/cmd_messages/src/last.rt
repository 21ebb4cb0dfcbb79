// The last message of a conference.
ghost use Rattle.std.specs.Prelude.{◌≡◌, ◌≤◌, ◌<◌, ℕ, List, [], length, All, IfOk};
ghost use Rattle.jam_records.specs.declared.message.Message.{Message};
ghost use Rattle.packet_verdicts.specs.Views.{msgid_at};
ghost use Rattle.post_changes.specs.Posted.{posts_in, spread};
ghost use Rattle.cmd_messages.specs.Sample.{last_msgid as last_msgid_of};

use board_layout::{StoredBoard, message_of};
use byte_lists::Bytes;
use post_changes::msgid_of;
use std::alloc::{AllocError, Global};

/// The msgid of the message of a number in a place of the board, nothing where no slot of it holds one.
fn kept_msgid(
    alloc: Global,
    board: &StoredBoard,
    place: u8,
    number: u32,
) -> Result<Bytes, AllocError>
    ensures { IfOk result (λ msgid. msgid ≡ msgid_at board.now place number) }
{
    let Some(base) = board.base_at(place) else {
        return Ok(Bytes::new(alloc));
    };
    match message_of(base, number) {
        Some(message) => message.msgid.copy(alloc),
        None => Ok(Bytes::new(alloc)),
    }
}

/// The msgid of the message that the last slot of a place holds, nothing where there is none, on the board with posts
/// of which so many are for the place. Those get the msgids that the board generates.
pub(crate) fn last_msgid(
    alloc: Global,
    board: &StoredBoard,
    place: u8,
    posted: u32,
) -> Result<Bytes, AllocError>
    requires place { place < length board.now.ledger.setup.conferences }
    requires few { posted ≤ 5000 }
    ensures { (posts : List (ℕ × Message)) → All (λ p. p.1.msgid ≡ []) posts → posted ≡ length (posts_in place posts) → IfOk result (λ msgid. msgid ≡ last_msgid_of place (spread posts board.now)) }
{
    let kept = board.slot_count(place);
    if posted == 0 {
        return kept_msgid(alloc, board, place, kept);
    }
    msgid_of(alloc, board, place, kept + posted)
}
