// Whether posts may stand at the ends of their conferences.
ghost use Rattle.std.specs.Prelude.{◌≡◌, ◌↔◌, ◌==◌, Some, count_by, All, IsTrue};
ghost use Rattle.slot_changes.specs.board_changes.Changed.{base_at};
ghost use Rattle.board_layout.specs.Renewed.{contents_of};
ghost use Rattle.board_layout.specs.Valid.{IsBoard};
ghost use Rattle.board_layout.specs.jam_layout.Valid.{IsConference};
ghost use Rattle.post_changes.specs.Posted.{ArePlaced, MayHoldIn, all_posted, posted_in, spread as spread_of, uploaded as uploaded_of};

use crate::post::{Post, Posts};
use crate::record::{may_record, record_of};
use crate::size::{size_with_posts, size_with_upload};
use board_layout::{BOARD_LIMIT, Base, SLOT_LIMIT, StoredBoard};
use board_ledger::VERDICT_LIMIT;
use jam_records::Kind;
use slot_changes::may_hold;

/// How many posts are in a place.
fn count_in(place: u8, posts: &[Post]) -> usize
    ensures { result ≡ count_by (λ post. post.0 == place) posts.now }
{
    posts.iter().filter(|post| post.0 == place).count()
}

/// Whether a conference of this kind may hold the message of a post, once it has a msgid. It is true of each post in
/// another place than this one.
fn may_hold_post(kind: Kind, place: u8, post: &Post) -> bool
    ensures { IsTrue result ↔ MayHoldIn kind place post.now }
{
    if post.0 != place {
        return true;
    }
    may_hold(kind, &post.1)
}

/// Whether a conference of this kind may hold each message of the posts in a place, once it has a msgid.
fn may_hold_posts(kind: Kind, place: u8, posts: &[Post]) -> bool
    ensures { IsTrue result ↔ All (MayHoldIn kind place) posts.now }
{
    for post in posts {
        if !may_hold_post(kind, place, post) {
            return false;
        }
    }
    true
}

/// Whether the base of a place is a conference of its shape once its posts stand at the end.
fn fits_place(board: &StoredBoard, place: u8, base: &Base, posts: &[Post]) -> bool
    requires board { IsBoard board.now }
    requires base { base_at place board.now ≡ Some base.now }
    ensures { IsTrue result ↔ IsConference (posted_in board.now posts.now place base.now).shape (posted_in board.now posts.now place base.now).conference }
{
    let kind = board.conference_of(place).kind;
    let slots = (base.slot_count() as usize).saturating_add(count_in(place, posts));
    slots <= SLOT_LIMIT && may_hold_posts(kind, place, posts)
}

/// Whether each base is a conference of its shape once its posts stand at the end.
fn fits_places(board: &StoredBoard, posts: &[Post]) -> bool
    ensures fits { IsTrue result ↔ All (λ base. IsConference base.shape base.conference) (all_posted board.now posts.now 0 (contents_of board.now)) }
    ensures board { IsBoard board.now }
{
    for (place, base) in board.bases().iter().enumerate() {
        if !fits_place(board, place as u8, base, posts) {
            return false;
        }
    }
    true
}

/// Whether the place of each post is there.
fn are_placed(board: &StoredBoard, posts: &[Post]) -> bool
    ensures { IsTrue result ↔ ArePlaced posts.now board.now }
{
    let count = board.bases().len();
    posts.iter().all(|post| usize::from(post.0) < count)
}

/// Whether the place of each post is there, and each base is a conference of its shape once its posts stand at the
/// end.
fn fits_all(board: &StoredBoard, posts: &[Post]) -> bool
    ensures fits { IsTrue result ↔ (ArePlaced posts.now board.now × All (λ base. IsConference base.shape base.conference) (all_posted board.now posts.now 0 (contents_of board.now))) }
    ensures board { IsBoard board.now }
{
    let fits = fits_places(board, posts);
    are_placed(board, posts) && fits
}

/// Whether the place of each post is there, and the board is valid once the posts stand at the ends of their
/// conferences. There a message without a msgid has the one that is generated for its number. It takes no memory.
pub fn fits_posts(board: &StoredBoard, posts: &Posts) -> bool
    ensures { IsTrue result ↔ (ArePlaced posts.now board.now × IsBoard (spread_of posts.now board.now)) }
{
    fits_all(board, posts.as_slice()) && size_with_posts(board, posts) <= BOARD_LIMIT
}

/// Whether the place of each post is there, and the board is valid once the posts stand so and an upload record is
/// kept. It is the record of the packet of a user and a SHA-256, of which so many messages were refused. It takes no
/// memory.
///
/// The record may be kept where all of these hold:
///
/// - The user is there, from 1.
/// - No record of that user and SHA-256 is kept.
/// - With this one there are at most 100,000 records.
/// - It counts at most 8,191 messages.
pub fn fits_upload(
    board: &StoredBoard,
    user: u32,
    digest: &[u8; 32],
    refused: u32,
    posts: &Posts,
) -> bool
    ensures { IsTrue result ↔ (ArePlaced posts.now board.now × IsBoard (uploaded_of user digest.now refused posts.now board.now)) }
{
    if posts.len() > VERDICT_LIMIT {
        return false;
    }
    let upload = record_of(user, digest, refused, posts.as_slice());
    if !may_record(board.ledger(), &upload) {
        return false;
    }
    fits_all(board, posts.as_slice()) && size_with_upload(board, posts) <= BOARD_LIMIT
}
