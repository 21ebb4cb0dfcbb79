//! The msgids of the conferences that messages come for.
ghost use Rattle.std.specs.Prelude.{◌≡◌, ◌<◌, ◌+◌, ◌||◌, ◌++◌, ◌∷◌, [], ℕ, List, length, Some, None, IfOk, OnOk};
ghost use Rattle.std.specs.List.{list_any};
ghost use Rattle.board_layout.specs.Board as Boards;
ghost use Rattle.board_layout.specs.Valid.{IsBoard};
ghost use Rattle.board_layout.specs.jam_base.Slots.{numbered};
ghost use Rattle.jam_records.specs.declared.message.Message as Messages;
ghost use Rattle.jam_threads.specs.Children.{has_msgid};
ghost use Rattle.mail_intake.specs.Msgids.{has_id};
ghost use Rattle.board_layout.specs.Lookups.{slots_in};
ghost use Rattle.post_changes.specs.Posted.{spread};
ghost use Rattle.post_changes.specs.slot_changes.Msgids.{identified, msgid_in};
ghost use Rattle.mail_intake.specs.packet_verdicts.Views.{next_number};
ghost use Rattle.cmd_toss.specs.Tossing.{AreSeen, HasSet, IsLoaded};

use board_layout::{Base, StoredBoard, message_of};
use mail_intake::MsgidSet;
use std::alloc::{AllocError, Global};

/// For each place the msgids that its conference holds, once a message came for it.
#[derive(Debug, Drop)]
pub(crate) struct Seen {
    pub(crate) sets: Vec<Option<MsgidSet>>,
}

/// Adds the msgid of the message of a number, where the slot of that number holds one.
fn add_held(alloc: Global, set: &mut MsgidSet, base: &Base, number: u32) -> Result<(), AllocError>
    ensures { OnOk result ((id : List ℕ) → has_id set.new id ≡ (has_msgid id (numbered base.now.conference.slots number) || has_id set.old id)) }
{
    match message_of(base, number) {
        Some(message) => set.add(alloc, message.msgid.as_slice()),
        None => Ok(()),
    }
}

/// The msgids of the messages that a base holds.
fn msgids_of(alloc: Global, base: &Base) -> Result<MsgidSet, AllocError>
    ensures { IfOk result (λ set. (id : List ℕ) → has_id set id ≡ list_any (has_msgid id) base.now.conference.slots) }
{
    let mut set = MsgidSet::new(alloc);
    for before in 0..base.slot_count() {
        add_held(alloc, &mut set, base, before + 1)?;
    }
    Ok(set)
}

/// The msgids of the messages that the conference in a place holds, none where no conference is there.
fn msgids_in(alloc: Global, board: &StoredBoard, place: u8) -> Result<MsgidSet, AllocError>
    ensures set { IfOk result (HasSet (slots_in board.now place)) }
    ensures board { IsBoard board.now }
{
    match board.base_at(place) {
        Some(base) => msgids_of(alloc, base),
        None => Ok(MsgidSet::new(alloc)),
    }
}

impl Seen {
    /// Before the first message.
    pub(crate) fn new(alloc: Global, board: &StoredBoard) -> Result<Seen, AllocError>
        ensures { IfOk result (AreSeen board.now []) }
    {
        let places = board.bases().len();
        let mut sets = Vec::new(alloc);
        for _ in 0..places {
            sets.push(None)?;
        }
        Ok(Seen { sets })
    }

    /// Sees to it that the msgids of the conference in a place are there. Where there is no memory, it is of no use.
    pub(crate) fn load(
        &mut self,
        alloc: Global,
        board: &StoredBoard,
        place: u8,
    ) -> Result<(), AllocError>
        requires place { place < length board.now.conferences }
        requires count { length self.old.sets.items ≡ length board.now.conferences }
        ensures seen { OnOk result ((posts : List (ℕ × Messages.Message)) → AreSeen board.now posts self.old → AreSeen board.now posts self.new) }
        ensures loaded { OnOk result (IsLoaded place self.new) }
    {
        let at = usize::from(place);
        if self.sets[at].is_some() {
            return Ok(());
        }
        let set = msgids_in(alloc, board, place)?;
        self.sets[at] = Some(set);
        Ok(())
    }

    /// Whether a message of the conference in a place has this msgid, the posts included. It takes no memory.
    pub(crate) fn has(&self, place: u8, msgid: &[u8]) -> bool
        requires { IsLoaded place self.now }
        ensures { (b : Boards.Board) (posts : List (ℕ × Messages.Message)) → AreSeen b posts self.now → result ≡ list_any (has_msgid msgid.now) (slots_in (spread posts b) place) }
    {
        match &self.sets[usize::from(place)] {
            Some(set) => set.has(msgid),
            None => false,
        }
    }

    /// Adds the msgid that a post more has for a place. Where there is no memory, it is of no use.
    pub(crate) fn add(&mut self, alloc: Global, place: u8, msgid: &[u8]) -> Result<(), AllocError>
        requires { IsLoaded place self.old }
        ensures { OnOk result ((b : Boards.Board) (posts : List (ℕ × Messages.Message)) (m : Messages.Message) → IsBoard b → place < length b.conferences → AreSeen b posts self.old → msgid.now ≡ (identified (msgid_in place b (next_number (spread posts b) place)) m).msgid → AreSeen b (posts ++ (place, m) ∷ []) self.new) }
    {
        match &mut self.sets[usize::from(place)] {
            Some(set) => set.add(alloc, msgid),
            None => Ok(()),
        }
    }
}
