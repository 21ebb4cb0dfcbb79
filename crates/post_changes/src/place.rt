// The posts in one place.
ghost use Rattle.std.specs.Prelude.{◌≡◌, ◌≤◌, ◌+◌, Some, length, IfOk, IfSome};
ghost use Rattle.slot_changes.specs.board_changes.Change.{ChangesBase};
ghost use Rattle.slot_changes.specs.board_changes.Changed.{base_at};
ghost use Rattle.slot_changes.specs.board_changes.Outlined.{ChangesEach};
ghost use Rattle.slot_changes.specs.board_changes.Spending.{SpendsHere};
ghost use Rattle.board_layout.specs.jam_base.Outlined.{outlined};
ghost use Rattle.board_layout.specs.jam_layout.Limits.{slot_limit};
ghost use Rattle.board_layout.specs.jam_layout.Valid.{IsConference};
ghost use Rattle.slot_changes.specs.board_changes.Steps.{base_after, patches_or_none};
ghost use Rattle.board_layout.specs.Layout.{files_in};
ghost use Rattle.post_changes.specs.Posted.{posted_in, posts_in};
ghost use Rattle.slot_changes.specs.Msgids.{all_identified, generated};

use crate::post::Post;
use board_layout::{Base, BaseChange, StoredBoard};
use jam_records::Messages;
use slot_changes::identified;
use std::alloc::{AllocError, Global};

/// Copies of the messages of the posts in a place, the first of which gets this number, each with the msgid that is
/// generated for its number, where it has none.
fn copies_in(
    alloc: Global,
    conference: u16,
    bbsid: &[u8],
    first: u32,
    place: u8,
    posts: &[Post],
) -> Result<Messages, AllocError>
    requires { first + length (posts_in place posts.now) ≤ slot_limit + 1 }
    ensures { IfOk result (λ copies. copies ≡ all_identified (generated conference bbsid.now) first (posts_in place posts.now)) }
{
    let mut copies = Messages::new(alloc);
    for post in posts {
        if post.0 == place {
            let number = first + copies.len() as u32;
            copies.add(identified(alloc, conference, bbsid, number, &post.1)?)?;
        }
    }
    Ok(copies)
}

/// The change of the base of a place by its posts at the end, or None where it has none. The base that it makes is
/// a conference of its shape.
pub(crate) fn place_posted(
    alloc: Global,
    board: &StoredBoard,
    place: u8,
    base: &Base,
    posts: &[Post],
) -> Result<Option<BaseChange>, AllocError>
    requires base { base_at place board.now ≡ Some base.now }
    requires next { IsConference (posted_in board.now posts.now place base.now).shape (posted_in board.now posts.now place base.now).conference }
    ensures base { IfOk result (λ change. base_after base.now change ≡ outlined (posted_in board.now posts.now place base.now)) }
    ensures changes { IfOk result (λ change. IfSome change (ChangesBase base.now)) }
    ensures each { IfOk result (λ change. ChangesEach base.now (posted_in board.now posts.now place) (patches_or_none change)) }
    ensures costs { IfOk result (λ change. SpendsHere (length (posts_in place posts.now)) (files_in base.now) (files_in (base_after base.now change)) (patches_or_none change)) }
{
    let conference = board.conference_of(place).number;
    let bbsid = board.ledger().setup.bbsid().as_slice();
    let first = base.slot_count() + 1;
    let messages = copies_in(alloc, conference, bbsid, first, place, posts)?;
    if messages.as_slice().is_empty() {
        return Ok(None);
    }
    Ok(Some(base.extended(alloc, messages)?))
}
