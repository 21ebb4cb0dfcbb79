ghost use Rattle.std.specs.Prelude.{◌≡◌, ◌≤◌, ◌+◌, ◌-◌, ◌^◌, ℕ, List, Some, length, min, sum_by};
ghost use Rattle.slot_changes.specs.board_changes.Changed.{base_at};
ghost use Rattle.board_layout.specs.Layout.{board_size};
ghost use Rattle.board_layout.specs.Valid.{IsBoard};
ghost use Rattle.board_layout.specs.jam_layout.Sizes.{slot_size};
ghost use Rattle.jam_records.specs.declared.message.Slot.TheVariants.{Held};
ghost use Rattle.post_changes.specs.Posted.{posts_in, spread as spread_of, uploaded as uploaded_of, ArePlaced};
ghost use Rattle.slot_changes.specs.Msgids.{all_identified, generated, msgid_in};

use crate::post::{Post, Posts};
use board_layout::{Base, StoredBoard};
use board_ledger::UPLOAD_SIZE;
use slot_changes::{generated_len, message_size};

/// How many bytes of a conference's files the messages of the posts in a place take, or 18,446,744,073,709,551,615
/// where they are more. The first gets this number, and each has the msgid that is generated for its number, where it
/// has none.
fn copies_size(conference: u16, bbsid: &[u8], first: u64, place: u8, posts: &[Post]) -> u64
    requires { first ≤ 2 ^ 32 }
    ensures { result ≡ min (sum_by (λ message. slot_size (Held message)) (all_identified (generated conference bbsid.now) first (posts_in place posts.now))) (2 ^ 64 - 1) }
{
    let mut size: u64 = 0;
    let mut number = first;
    for post in posts {
        if post.0 == place {
            let generated = generated_len(conference, bbsid, number);
            size = size.saturating_add(message_size(&post.1, generated));
            number += 1;
        }
    }
    size
}

/// How many bytes the posts in a place add to the files of the base there, or 18,446,744,073,709,551,615 where they
/// are more.
fn place_size(board: &StoredBoard, place: u8, base: &Base, posts: &[Post]) -> u64
    requires { base_at place board.now ≡ Some base.now }
    ensures { result ≡ min (sum_by (λ message. slot_size (Held message)) (all_identified (msgid_in place board.now) (length base.now.conference.slots + 1) (posts_in place posts.now))) (2 ^ 64 - 1) }
{
    let conference = board.conference_of(place).number;
    let bbsid = board.ledger().setup.bbsid().as_slice();
    let first = u64::from(base.slot_count()) + 1;
    copies_size(conference, bbsid, first, place, posts)
}

/// How many bytes the data files have together once posts stand at the ends of their conferences, as
/// `size_with_posts` has it.
fn spread_size(board: &StoredBoard, posts: &[Post]) -> u64
    ensures size { result ≡ min (board_size (spread_of posts.now board.now)) (2 ^ 64 - 1) }
    ensures board { IsBoard board.now }
{
    let mut size = board.size();
    for (place, base) in board.bases().iter().enumerate() {
        size = size.saturating_add(place_size(board, place as u8, base, posts));
    }
    size
}

/// How many bytes the data files have together once posts stand at the ends of their conferences, each with the msgid
/// that is generated for its number, where it has none, or 18,446,744,073,709,551,615 where they are more. All places
/// are there. It takes no memory.
pub fn size_with_posts(board: &StoredBoard, posts: &Posts) -> u64
    requires { ArePlaced posts.now board.now }
    ensures { result ≡ min (board_size (spread_of posts.now board.now)) (2 ^ 64 - 1) }
{
    spread_size(board, posts.as_slice())
}

/// How many bytes the data files have together once the posts of a packet stand so and its record is kept, whoever
/// sent it, or 18,446,744,073,709,551,615 where they are more. All places are there. It takes no memory.
pub fn size_with_upload(board: &StoredBoard, posts: &Posts) -> u64
    requires { ArePlaced posts.now board.now }
    ensures { (user : ℕ) (digest : List ℕ) (refused : ℕ) → length digest ≡ 32 → result ≡ min (board_size (uploaded_of user digest refused posts.now board.now)) (2 ^ 64 - 1) }
{
    spread_size(board, posts.as_slice()).saturating_add(UPLOAD_SIZE as u64)
}
