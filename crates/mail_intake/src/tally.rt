//! Posts so far, and what they take of a board.
ghost use Rattle.std.specs.Prelude.{◌≡◌, ◌<◌, ◌-◌, ◌^◌, ◌++◌, [], ◌∷◌, false, length, min, IfOk, OnOk};
ghost use Rattle.board_layout.specs.Layout.{board_size};
ghost use Rattle.board_layout.specs.Valid.{IsBoard};
ghost use Rattle.mail_intake.specs.Room.{is_full as is_full_with};
ghost use Rattle.mail_intake.specs.Tallies.{IsTally, MayTake};
ghost use Rattle.packet_verdicts.specs.Views.{next_number};
ghost use Rattle.post_changes.specs.Posted.{spread};

use board_layout::{BOARD_LIMIT, SLOT_LIMIT, StoredBoard};
use byte_lists::List;
use jam_records::Message;
use post_changes::{Posts, generated_len, message_size};
use std::alloc::{AllocError, Global};

/// Posts so far, each of which a board has room for behind those before it, and what they take of it.
#[derive(Debug, Drop)]
pub struct Tally {
    /// The posts, in the order in which they came.
    pub posts: Posts,
    /// For each place how many slots its conference has with them.
    pub slots: Vec<u32>,
    /// How many bytes the data files have with them.
    pub size: u64,
}

impl Tally {
    /// No posts.
    pub fn new(alloc: Global, board: &StoredBoard) -> Result<Tally, AllocError>
        ensures none { IfOk result (λ tally. tally.posts ≡ []) }
        ensures tally { IfOk result (IsTally board.now) }
    {
        let mut slots = List::new(alloc);
        for base in board.bases() {
            slots.add(base.slot_count())?;
        }
        Ok(Tally {
            posts: Posts::new(alloc),
            slots: slots.into_vec(),
            size: board.size(),
        })
    }

    /// How many bytes the data files would have with a message more in a place, or 18,446,744,073,709,551,615 where
    /// they would have more.
    fn size_with(&self, board: &StoredBoard, place: u8, message: &Message) -> u64
        requires tally { IsTally board.now self.now }
        requires place { place < length board.now.conferences }
        ensures size { result ≡ min (board_size (spread (self.now.posts ++ (place, message.now) ∷ []) board.now)) (2 ^ 64 - 1) }
        ensures board { IsBoard board.now }
    {
        let conference = board.conference_of(place).number;
        let bbsid = board.ledger().setup.bbsid().as_slice();
        let number = u64::from(self.slots[usize::from(place)]) + 1;
        let generated = generated_len(conference, bbsid, number);
        self.size.saturating_add(message_size(message, generated))
    }

    /// Whether there is no room for a message more in a place, behind the posts: the conference has 9,999 slots, or the
    /// data files would have more than 34,603,008 bytes. It takes no memory, and no time but for the message.
    pub fn is_full(&self, board: &StoredBoard, place: u8, message: &Message) -> bool
        requires tally { IsTally board.now self.now }
        requires place { place < length board.now.conferences }
        ensures { result ≡ is_full_with board.now self.now.posts (place, message.now) }
    {
        self.slots[usize::from(place)] as usize >= SLOT_LIMIT
            || self.size_with(board, place, message) > BOARD_LIMIT
    }

    /// Adds a message for a place, for which there is room, and answers the message number that it gets, from 1. Where
    /// there is no memory, the posts are no longer of use.
    pub fn add(
        &mut self,
        board: &StoredBoard,
        place: u8,
        message: Message,
    ) -> Result<u32, AllocError>
        requires tally { IsTally board.now self.old }
        requires room { is_full_with board.now self.old.posts (place, message) ≡ false }
        requires takes { MayTake board.now place message }
        ensures posts { OnOk result (self.new.posts ≡ self.old.posts ++ (place, message) ∷ []) }
        ensures tally { OnOk result (IsTally board.now self.new) }
        ensures number { IfOk result (λ number. number ≡ next_number (spread self.old.posts board.now) place) }
    {
        self.size = self.size_with(board, place, &message);
        let slots = &mut self.slots[usize::from(place)];
        *slots += 1;
        let number = *slots;
        self.posts.add((place, message))?;
        Ok(number)
    }
}
