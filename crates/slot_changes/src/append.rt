ghost use Rattle.std.specs.Prelude.{◌≡◌, ◌<◌, ◌≤◌, ◌+◌, length, IfOk};
ghost use Rattle.board_changes.specs.Change.{Becomes};
ghost use Rattle.board_changes.specs.Outlined.{LeadsEach};
ghost use Rattle.board_changes.specs.Spending.{Spends};
ghost use Rattle.board_layout.specs.Outlines.{board_outline};
ghost use Rattle.board_layout.specs.Valid.{IsBoard};
ghost use Rattle.jam_layout.specs.Limits.{slot_limit};
ghost use Rattle.slot_changes.specs.Changed.{appended as appended_of};
ghost use Rattle.slot_changes.specs.Msgids.{generated as generated_of, identified as identified_of, all_identified as all_identified_of};

use crate::msgid::generated;
use board_changes::{BoardChange, with_base};
use board_layout::StoredBoard;
use byte_lists::Duplicate;
use jam_records::{Message, Messages};
use std::alloc::{AllocError, Global};

/// A copy of a message, with the msgid that is generated for a message number in the conference of a number, where it
/// has none.
///
/// The error comes where there is no memory.
pub fn identified(
    alloc: Global,
    conference: u16,
    bbsid: &[u8],
    number: u32,
    message: &Message,
) -> Result<Message, AllocError>
    ensures { IfOk result (λ copy. copy ≡ identified_of (generated_of conference bbsid.now number) message.now) }
{
    let mut copy = message.duplicate(alloc)?;
    if copy.msgid.as_slice().is_empty() {
        copy.msgid = generated(alloc, conference, bbsid, number)?;
    }
    Ok(copy)
}

/// Copies of messages, the first of which gets this number, each with the msgid that is generated for its number,
/// where it has none.
fn all_identified(
    alloc: Global,
    conference: u16,
    bbsid: &[u8],
    first: u32,
    messages: &[Message],
) -> Result<Messages, AllocError>
    requires { first + length messages.now ≤ slot_limit + 1 }
    ensures { IfOk result (λ copies. copies ≡ all_identified_of (generated_of conference bbsid.now) first messages.now) }
{
    let mut copies = Messages::new(alloc);
    for (index, message) in messages.iter().enumerate() {
        let number = first + index as u32;
        copies.add(identified(alloc, conference, bbsid, number, message)?)?;
    }
    Ok(copies)
}

/// The change of a board by messages at the end of the conference in a place, one after the other, each with the
/// msgid that is generated for its number, where it has none. Where there are no messages, the board stays as it is.
/// The place is there, and the board that it makes is valid. The intent serves each board with the outline of this
/// one. A message is copied once.
///
/// The error comes where there is no memory.
pub fn appended(
    alloc: Global,
    board: &StoredBoard,
    place: u8,
    messages: &Messages,
) -> Result<BoardChange, AllocError>
    requires place { place < length board.now.conferences }
    requires next { IsBoard (appended_of place messages.now board.now) }
    ensures becomes { IfOk result (λ change. Becomes board.now (board_outline (appended_of place messages.now board.now)) change) }
    ensures each { IfOk result (λ change. LeadsEach board.now (appended_of place messages.now) change.intent) }
    ensures costs { IfOk result (λ change. Spends (length messages.now) board.now (appended_of place messages.now board.now) change.intent) }
{
    let base = board.base_of(place);
    let conference = board.conference_of(place).number;
    let bbsid = board.ledger().setup.bbsid().as_slice();
    let first = base.slot_count() + 1;
    let messages = all_identified(alloc, conference, bbsid, first, messages.as_slice())?;
    with_base(alloc, board, place, base.extended(alloc, messages)?)
}
