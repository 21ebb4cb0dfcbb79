ghost use Rattle.std.specs.Prelude.{◌≡◌, ◌+◌, Some, length, unwrap_or, IfOk, OnOk};
ghost use Rattle.slot_changes.specs.board_changes.Change.{Becomes};
ghost use Rattle.slot_changes.specs.board_changes.Changed.{base_at};
ghost use Rattle.slot_changes.specs.board_changes.Outlined.{GatheredEach, LeadsEach};
ghost use Rattle.slot_changes.specs.board_changes.Spending.{Spends};
ghost use Rattle.board_layout.specs.Board.{shapes_of};
ghost use Rattle.board_layout.specs.Outlines.{board_outline};
ghost use Rattle.board_layout.specs.Valid.{IsBoard};
ghost use Rattle.post_changes.specs.Posted.{ArePlaced, posted_with, spread as spread_of};
ghost use Rattle.post_changes.specs.Posting.{Posting, SpentSoFar, next_ledger};

use crate::place::place_posted;
use board_layout::{Base, StoredBoard};
use board_ledger::Ledger;
use byte_lists::List;
use intent_journal::Intent;
use jam_records::Message;
use slot_changes::{BoardChange, gather};
use std::alloc::{AllocError, Global};

/// The place of a conference, from 0, and a message for it. A message with an empty msgid gets the one that is
/// generated for its number.
pub type Post = (u8, Message);

/// Posts in order.
pub type Posts = List<Post>;

/// Adds to a change, which has those of the places before, the base of a place with its posts at the end, or None
/// where it has none, and the patches that make its files.
fn add_base(
    alloc: Global,
    board: &StoredBoard,
    place: u8,
    base: &Base,
    posts: &[Post],
    change: &mut BoardChange,
) -> Result<(), AllocError>
    requires board { IsBoard board.now }
    requires base { base_at place board.now ≡ Some base.now }
    requires so_far { Posting board.now posts.now place change.old }
    ensures ledger { OnOk result (change.new.ledger ≡ change.old.ledger) }
    ensures so_far { OnOk result (Posting board.now posts.now (place + 1) change.new) }
{
    let made = place_posted(alloc, board, place, base, posts)?;
    let next = gather(made, &mut change.intent)?;
    change.bases.add(next)
}

/// Adds to a change, which has none yet, the bases of all places with posts, and the patches that make their files.
fn add_bases(
    alloc: Global,
    board: &StoredBoard,
    posts: &[Post],
    change: &mut BoardChange,
) -> Result<(), AllocError>
    requires { Posting board.now posts.now 0 change.old }
    ensures becomes { OnOk result (Becomes board.now (board_outline (posted_with (next_ledger board.now change.old) posts.now board.now)) change.new) }
    ensures each { OnOk result (LeadsEach board.now (posted_with (next_ledger board.now change.old) posts.now) change.new.intent) }
    ensures costs { OnOk result (Spends (length posts.now) board.now (posted_with (next_ledger board.now change.old) posts.now board.now) change.new.intent) }
{
    for (place, base) in board.bases().iter().enumerate() {
        add_base(alloc, board, place as u8, base, posts, change)?;
    }
    Ok(())
}

/// The change of a board to another ledger, where there is one, whose file the intent makes, with posts at the ends of
/// their conferences. The conferences have the same shapes by both ledgers, and the board that it makes is valid.
pub(crate) fn posted(
    alloc: Global,
    board: &StoredBoard,
    ledger: Option<Ledger>,
    intent: Intent,
    posts: &[Post],
) -> Result<BoardChange, AllocError>
    requires shapes { shapes_of (unwrap_or ledger board.now.ledger) ≡ shapes_of board.now.ledger }
    requires next { IsBoard (posted_with (unwrap_or ledger board.now.ledger) posts.now board.now) }
    requires gathered { GatheredEach board.now (posted_with (unwrap_or ledger board.now.ledger) posts.now) 0 intent }
    requires spent { SpentSoFar board.now posts.now 0 (unwrap_or ledger board.now.ledger) intent }
    ensures becomes { IfOk result (Becomes board.now (board_outline (posted_with (unwrap_or ledger board.now.ledger) posts.now board.now))) }
    ensures each { IfOk result (λ change. LeadsEach board.now (posted_with (unwrap_or ledger board.now.ledger) posts.now) change.intent) }
    ensures costs { IfOk result (λ change. Spends (length posts.now) board.now (posted_with (unwrap_or ledger board.now.ledger) posts.now board.now) change.intent) }
{
    let mut change = BoardChange {
        ledger,
        bases: List::new(alloc),
        intent,
    };
    add_bases(alloc, board, posts, &mut change)?;
    Ok(change)
}

/// The change of a board by posts: the messages of each place go to the end of the conference there, in order, each
/// with the msgid that is generated for its number, where it has none. A conference without posts stays as it is,
/// and so does the ledger. All places are there, and the board that it makes is valid. The intent serves each board
/// with the outline of this one. A message is copied once.
///
/// The error comes where there is no memory.
pub fn spread(alloc: Global, board: &StoredBoard, posts: &Posts) -> Result<BoardChange, AllocError>
    requires places { ArePlaced posts.now board.now }
    requires next { IsBoard (spread_of posts.now board.now) }
    ensures becomes { IfOk result (Becomes board.now (board_outline (spread_of posts.now board.now))) }
    ensures each { IfOk result (λ change. LeadsEach board.now (spread_of posts.now) change.intent) }
    ensures costs { IfOk result (λ change. Spends (length posts.now) board.now (spread_of posts.now board.now) change.intent) }
{
    posted(alloc, board, None, Intent::new(alloc), posts.as_slice())
}
