// What the rules see of a board with the drafts that were accepted so far.
ghost use Rattle.std.specs.Prelude.{◌≡◌, ◌<◌, ◌≤◌, ◌+◌, [], length, Some, None, is_none, IfOk, IfSome};
ghost use Rattle.board_layout.specs.Valid.{IsBoard};
ghost use Rattle.board_layout.specs.Lookups.{slots_in};
ghost use Rattle.board_ledger.specs.Limits.{verdict_limit};
ghost use Rattle.board_layout.specs.jam_layout.Limits.{slot_limit};
ghost use Rattle.packet_verdicts.specs.Accepted.{IsIndexed};
ghost use Rattle.post_changes.specs.Posted.{spread};
ghost use Rattle.packet_verdicts.specs.Views.{view_with, conference_seen as seen_of};
ghost use Rattle.post_changes.specs.slot_changes.Msgids.{msgid_in};

use crate::accepted::Accepted;
use board_layout::StoredBoard;
use board_ledger::User;
use byte_lists::Bytes;
use netmail_rules::{ConferenceView, View};
use offered_packets::is_sysop;
use post_changes::generated_len;
use std::alloc::{AllocError, Global};

/// What the rules see of a board for a user, without a conference and a reply.
pub(crate) fn user_view(
    alloc: Global,
    board: &StoredBoard,
    user: &User,
    room: u64,
) -> Result<View, AllocError>
    ensures { IfOk result (λ view. view ≡ view_with board.now.ledger user.now None [] room) }
{
    let ledger = board.ledger();
    Ok(View {
        user: user.name.copy(alloc)?,
        net: user.net,
        is_sysop: is_sysop(ledger, user),
        sysop: ledger.setup.fields().sysop.copy(alloc)?,
        zones: ledger.setup.fields().zones.copy(alloc)?,
        conference: None,
        reply: Bytes::new(alloc),
        room,
    })
}

/// How many slots the conference in a place has with the drafts at its end.
fn slot_count(board: &StoredBoard, accepted: &Accepted, place: u8) -> u32
    requires indexed { IsIndexed accepted.now }
    requires place { place < length board.now.ledger.setup.conferences }
    requires few { length accepted.now.posts ≤ verdict_limit }
    ensures count { result ≡ length (slots_in (spread accepted.now.posts board.now) place) }
    ensures few { result ≤ slot_limit + verdict_limit }
    ensures board { IsBoard board.now }
{
    board.slot_count(place) + accepted.count(place) as u32
}

/// How many bytes the msgid has that is generated for a message number in a place.
fn msgid_len(board: &StoredBoard, place: u8, number: u32) -> u32
    requires board { IsBoard board.now }
    requires place { place < length board.now.ledger.setup.conferences }
    requires number { number < 100000 }
    ensures { result ≡ length (msgid_in place board.now number) }
{
    let conference = board.conference_of(place).number;
    let bbsid = board.ledger().setup.bbsid().as_slice();
    generated_len(conference, bbsid, u64::from(number)) as u32
}

/// What the rules see of the conference in a place.
fn conference_view(
    board: &StoredBoard,
    user: &User,
    accepted: &Accepted,
    place: u8,
) -> ConferenceView
    requires indexed { IsIndexed accepted.now }
    requires place { place < length board.now.ledger.setup.conferences }
    requires few { length accepted.now.posts ≤ verdict_limit }
    ensures view { Some result ≡ seen_of (spread accepted.now.posts board.now) user.now (Some place) }
    ensures slots { result.slots ≤ slot_limit + verdict_limit }
{
    let slots = slot_count(board, accepted, place);
    let conference = board.conference_of(place);
    ConferenceView {
        number: conference.number,
        kind: conference.kind,
        readonly: conference.readonly,
        private: conference.private,
        member: user.is_member(u32::from(place)),
        slots,
        msgid_len: msgid_len(board, place, slots + 1),
    }
}

/// What the rules see of the conference in a place, where there is one.
pub(crate) fn conference_seen(
    board: &StoredBoard,
    user: &User,
    accepted: &Accepted,
    place: Option<u8>,
) -> Option<ConferenceView>
    requires indexed { IsIndexed accepted.now }
    requires place { IfSome place (λ place. place < length board.now.ledger.setup.conferences) }
    requires few { length accepted.now.posts ≤ verdict_limit }
    ensures seen { result ≡ seen_of (spread accepted.now.posts board.now) user.now place }
    ensures there { is_none place ≡ is_none result }
    ensures slots { IfSome result (λ view. view.slots ≤ slot_limit + verdict_limit) }
{
    match place {
        Some(place) => Some(conference_view(board, user, accepted, place)),
        None => None,
    }
}
