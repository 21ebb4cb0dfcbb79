ghost use Rattle.std.specs.Prelude.{◌≡◌, ◌<◌, ◌++◌, [], ◌∷◌, length, slice_get, IfOk, OnOk};
ghost use Rattle.std.specs.Option.{option_copied};
ghost use Rattle.board_ledger.specs.Limits.{verdict_limit};
ghost use Rattle.board_layout.specs.jam_layout.Messages.{IsTyped};
ghost use Rattle.packet_verdicts.specs.Accepted.{IsIndexed};
ghost use Rattle.post_changes.specs.Posted.{posts_in};

use byte_lists::List;
use jam_records::Message;
use post_changes::Posts;
use std::alloc::{AllocError, Global};

/// How many places there may be.
const PLACES: usize = 64;

/// Indexes of posts, from 0.
type Indexes = List<u32>;

/// The drafts that were accepted so far.
#[derive(Debug, Drop)]
pub(crate) struct Accepted {
    /// In the order in which they were accepted. Their msgids are empty.
    pub(crate) posts: Posts,
    /// For each place the indexes of its posts, rising.
    pub(crate) by_place: Vec<Indexes>,
}

impl Accepted {
    /// No drafts.
    pub(crate) fn new(alloc: Global) -> Result<Accepted, AllocError>
        ensures none { IfOk result (λ accepted. accepted.posts ≡ []) }
        ensures indexed { IfOk result (λ accepted. IsIndexed accepted) }
    {
        let mut by_place = List::new(alloc);
        by_place.fill(alloc, &Indexes::new(alloc), PLACES)?;
        Ok(Accepted {
            posts: Posts::new(alloc),
            by_place: by_place.into_vec(),
        })
    }

    /// How many drafts there are for a place.
    pub(crate) fn count(&self, place: u8) -> usize
        requires indexed { IsIndexed self.now }
        requires place { place < 64 }
        ensures { result ≡ length (posts_in place self.now.posts) }
    {
        self.by_place[usize::from(place)].len()
    }

    /// The draft for a place that comes behind so many others for it, or None where there is none.
    pub(crate) fn draft(&self, place: u8, behind: usize) -> Option<&Message>
        requires indexed { IsIndexed self.now }
        requires place { place < 64 }
        ensures { option_copied result ≡ slice_get (posts_in place self.now.posts) behind }
    {
        let index = self.by_place[usize::from(place)].get(behind)?;
        match self.posts.get(*index as usize) {
            Some((_, draft)) => Some(draft),
            None => None,
        }
    }

    /// Adds a draft for a place. Its msgid is empty. Where there is no memory, the drafts are no longer of use.
    pub(crate) fn add(&mut self, place: u8, draft: Message) -> Result<(), AllocError>
        requires indexed { IsIndexed self.old }
        requires few { length self.old.posts < verdict_limit }
        requires place { place < 64 }
        requires draft { draft.msgid ≡ [] }
        requires typed { IsTyped draft }
        ensures posts { OnOk result (self.new.posts ≡ self.old.posts ++ (place, draft) ∷ []) }
        ensures indexed { OnOk result (IsIndexed self.new) }
    {
        let index = self.posts.len() as u32;
        self.by_place[usize::from(place)].add(index)?;
        self.posts.add((place, draft))
    }
}
