// Whether a change may be made, and what size it gives.
ghost use Rattle.std.specs.Prelude.{◌≡◌, ◌↔◌, ◌-◌, ◌^◌, ℕ, min, IsTrue};
ghost use Rattle.board_layout.specs.Layout.{board_size};
ghost use Rattle.board_layout.specs.Valid.{IsBoard};
ghost use Rattle.mail_board.specs.Changes.{changed, Exists, Fits};
ghost use Rattle.post_changes.specs.Posted.{ArePlaced, uploaded};

use crate::board::Board;
use crate::change::Change;
use board_layout::StoredBoard;
use offer_changes::{fits_acknowledgement, fits_offer};
use post_changes::{
    Posts, fits_deletion, fits_messages, fits_posts, fits_upload, fits_user, size_with_messages,
    size_with_posts, size_with_upload, size_with_user,
};

/// How many bytes the data files of a valid board have.
fn size_of(stored: &StoredBoard) -> u64
    ensures size { result ≡ board_size stored.now }
    ensures board { IsBoard stored.now }
{
    let _ledger = stored.ledger();
    stored.size()
}

/// How many bytes the data files have together once the posts of a packet of a SHA-256 stand at the ends of their
/// conferences and its record is kept, or 18,446,744,073,709,551,615 where they are more.
fn size_with_packet(stored: &StoredBoard, digest: &[u8; 32], posts: &Posts) -> u64
    requires { ArePlaced posts.now stored.now }
    ensures { (user refused : ℕ) → result ≡ min (board_size (uploaded user digest.now refused posts.now stored.now)) (2 ^ 64 - 1) }
{
    // Whichever digest it is, it has 32 bytes.
    let _digest = *digest;
    size_with_upload(stored, posts)
}

impl Board {
    /// Whether a change may be made: the users and places that it names are there, and so is what it acts on, and
    /// the board after it is valid, with data files of at most 34,603,008 bytes. It takes no memory.
    pub fn fits(&self, change: &Change) -> bool
        ensures { IsTrue result ↔ Fits change.now self.now.board }
    {
        match change {
            Change::Enroll { name, net, members } => {
                fits_user(&self.stored, name.as_slice(), *net, *members)
            }
            Change::Append { place, messages } => fits_messages(&self.stored, *place, messages),
            Change::Spread { posts } => fits_posts(&self.stored, posts),
            Change::Kill { place, number } => fits_deletion(&self.stored, *place, *number),
            Change::Offer { user, highs } => fits_offer(&self.stored, *user, highs),
            Change::Acknowledge { user, packet, now } => {
                fits_acknowledgement(&self.stored, *user, *packet, *now)
            }
            Change::Upload {
                user,
                digest,
                refused,
                posts,
            } => fits_upload(&self.stored, *user, digest, *refused, posts),
        }
    }

    /// How many bytes the data files have together after a change, or 18,446,744,073,709,551,615 where they are
    /// more. The users and places that it names are there, and an offer has a high for each conference. It takes no
    /// memory.
    pub fn size_after(&self, change: &Change) -> u64
        requires { Exists change.now self.now.board }
        ensures { result ≡ min (board_size (changed change.now self.now.board)) (2 ^ 64 - 1) }
    {
        match change {
            Change::Enroll { name, net, members } => {
                size_with_user(&self.stored, name.as_slice(), *net, *members)
            }
            Change::Append { place, messages } => {
                size_with_messages(&self.stored, *place, messages)
            }
            Change::Spread { posts } => size_with_posts(&self.stored, posts),
            Change::Upload { digest, posts, .. } => size_with_packet(&self.stored, digest, posts),
            // A mark takes no byte.
            Change::Kill { .. } => size_of(&self.stored),
            // A user's record has room for four offers, whether they are open or not.
            Change::Offer { .. } => size_of(&self.stored),
            Change::Acknowledge { .. } => size_of(&self.stored),
        }
    }
}
