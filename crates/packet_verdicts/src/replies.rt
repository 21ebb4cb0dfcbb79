// The msgid of the message that an uploaded one refers to.
ghost use Rattle.std.specs.Prelude.{◌≡◌, ◌<◌, ◌&&◌, [], length, not, IfOk, IfSome, IsSome, if◌then◌else◌};
ghost use Rattle.board_layout.specs.Lookups.{user_of as user_with_id};
ghost use Rattle.offered_packets.specs.Sees.{may_see as is_seen_by};
ghost use Rattle.packet_verdicts.specs.Accepted.{IsIndexed};
ghost use Rattle.post_changes.specs.Posted.{spread};
ghost use Rattle.packet_verdicts.specs.Views.{user_with, reply_at as reply_of, reply_seen as reply_seen_of};
ghost use Rattle.post_changes.specs.slot_changes.Msgids.{msgid_in};

use crate::accepted::Accepted;
use crate::lookups::message_at;
use board_layout::StoredBoard;
use byte_lists::Bytes;
use jam_records::Message;
use offered_packets::{may_see, sees};
use post_changes::msgid_of;
use std::alloc::{AllocError, Global};

/// The msgid of the message of a number in a place of the board, where the user of an id sees it, else nothing.
fn kept_reply(
    alloc: Global,
    board: &StoredBoard,
    user: u32,
    place: u8,
    number: u32,
) -> Result<Bytes, AllocError>
    ensures { IfOk result (λ msgid. msgid ≡ reply_of board.now user place number) }
{
    if !sees(board, user, place, number) {
        return Ok(Bytes::new(alloc));
    }
    match message_at(board, place, number) {
        Some(message) => message.msgid.copy(alloc),
        None => Ok(Bytes::new(alloc)),
    }
}

/// The msgid that a draft gets, which is the message of a number in a place, where the user of an id may see it,
/// else nothing.
fn draft_reply(
    alloc: Global,
    board: &StoredBoard,
    user: u32,
    place: u8,
    number: u32,
    draft: &Message,
) -> Result<Bytes, AllocError>
    requires user { IsSome (user_with_id user board.now) }
    requires place { place < length board.now.ledger.setup.conferences }
    ensures { IfOk result (λ msgid. msgid ≡ (if not draft.now.deleted && is_seen_by board.now.ledger place (user_with user board.now) draft.now then msgid_in place board.now number else [])) }
{
    let user = board.user_of(user);
    if draft.deleted || !may_see(board.ledger(), place, user, draft) {
        return Ok(Bytes::new(alloc));
    }
    msgid_of(alloc, board, place, number)
}

/// The msgid of the message of a number in a place of the board with the drafts, where the user of an id sees it, else
/// nothing.
fn reply_at(
    alloc: Global,
    board: &StoredBoard,
    user: u32,
    accepted: &Accepted,
    place: u8,
    number: u32,
) -> Result<Bytes, AllocError>
    requires user { IsSome (user_with_id user board.now) }
    requires indexed { IsIndexed accepted.now }
    requires place { place < length board.now.ledger.setup.conferences }
    ensures { IfOk result (λ msgid. msgid ≡ reply_of (spread accepted.now.posts board.now) user place number) }
{
    let kept = board.slot_count(place);
    if number <= kept {
        return kept_reply(alloc, board, user, place, number);
    }
    match accepted.draft(place, (number - kept - 1) as usize) {
        Some(draft) => draft_reply(alloc, board, user, place, number, draft),
        None => Ok(Bytes::new(alloc)),
    }
}

/// The msgid of the message of the reference in the place of a conference, where both are there and the user of an id
/// sees it, else nothing.
pub(crate) fn reply_seen(
    alloc: Global,
    board: &StoredBoard,
    user: u32,
    accepted: &Accepted,
    place: Option<u8>,
    reference: Option<u32>,
) -> Result<Bytes, AllocError>
    requires user { IsSome (user_with_id user board.now) }
    requires indexed { IsIndexed accepted.now }
    requires place { IfSome place (λ place. place < length board.now.ledger.setup.conferences) }
    ensures { IfOk result (λ msgid. msgid ≡ reply_seen_of (spread accepted.now.posts board.now) user place reference) }
{
    match (place, reference) {
        (Some(place), Some(number)) => reply_at(alloc, board, user, accepted, place, number),
        _ => Ok(Bytes::new(alloc)),
    }
}
