//! What becomes of the messages of a type 2 packet, one after the other.
ghost use Rattle.std.specs.Prelude.{◌≡◌, ◌<◌, ◌++◌, ◌∷◌, [], length, false, None, IfOk, OnOk};
ghost use Rattle.board_layout.specs.Board as Boards;
ghost use Rattle.board_layout.specs.Valid.{IsBoard};
ghost use Rattle.fts_packet.specs.Tossed.{toss_verdict};
ghost use Rattle.fts_packet.specs.declared.toss.TossDraft.TheVariants.{Post};
ghost use Rattle.mail_intake.specs.Room.{is_full};
ghost use Rattle.mail_intake.specs.Tallies.{IsTally, MayTake};
ghost use Rattle.cmd_toss.specs.Tossed.{is_dupe as is_dupe_of, last_rule as last_rule_of, posted_as, tossed_as};
ghost use Rattle.cmd_toss.specs.Tossing.{AreRead, AreSeen, AreTossed, IsLoaded, IsOfPacket};

use crate::seen::Seen;
use board_layout::StoredBoard;
use byte_lists::Bytes;
use fts_packet::{FtsMessage, TossDraft, TossRule, toss_draft};
use jam_layout::typed;
use jam_records::Message;
use mail_intake::{Tally, add_posted, add_refused};
use post_changes::msgid_of;
use std::alloc::{AllocError, Global};

/// What became of the messages so far.
#[derive(Debug, Drop)]
pub(crate) struct Tossed {
    /// The messages that are posted.
    pub(crate) tally: Tally,
    /// The msgids of the conferences that messages came for.
    pub(crate) seen: Seen,
    /// The line of each message.
    pub(crate) lines: Bytes,
}

impl Tossed {
    /// Before the first message.
    fn new(alloc: Global, board: &StoredBoard) -> Result<Tossed, AllocError>
        ensures { (now : _) → IfOk result (AreTossed now board.now []) }
    {
        Ok(Tossed {
            tally: Tally::new(alloc, board)?,
            seen: Seen::new(alloc, board)?,
            lines: Bytes::new(alloc),
        })
    }

    /// Whether the msgid of a message for a place isn't absent, and a message that the conference holds has it.
    fn is_dupe(&self, place: u8, message: &Message) -> bool
        requires { IsLoaded place self.now.seen }
        ensures { (b : Boards.Board) → AreSeen b self.now.tally.posts self.now.seen → result ≡ is_dupe_of b self.now.tally.posts (place, message.now) }
    {
        let msgid = message.msgid.as_slice();
        if msgid.is_empty() {
            return false;
        }
        self.seen.has(place, msgid)
    }

    /// The rule, `Dupe` or `Full`, that refuses a message for a place behind the posts, where one does.
    fn last_rule(
        &mut self,
        alloc: Global,
        board: &StoredBoard,
        place: u8,
        message: &Message,
    ) -> Result<Option<TossRule>, AllocError>
        requires there { place < length board.now.conferences }
        requires tally { IsTally board.now self.old.tally }
        requires seen { AreSeen board.now self.old.tally.posts self.old.seen }
        ensures rule { IfOk result (λ rule. rule ≡ last_rule_of board.now self.old.tally.posts (place, message.now)) }
        ensures seen { OnOk result (AreSeen board.now self.old.tally.posts self.new.seen) }
        ensures loaded { OnOk result (IsLoaded place self.new.seen) }
        ensures rest { OnOk result (self.new ≡ record self.old { seen = self.new.seen }) }
    {
        self.seen.load(alloc, board, place)?;
        if self.is_dupe(place, message) {
            return Ok(Some(TossRule::Dupe));
        }
        if self.tally.is_full(board, place, message) {
            return Ok(Some(TossRule::Full));
        }
        Ok(None)
    }

    /// Adds the msgid that a message more gets in a place: its own, or the one that is generated for its number.
    fn see(
        &mut self,
        alloc: Global,
        board: &StoredBoard,
        place: u8,
        message: &Message,
    ) -> Result<(), AllocError>
        requires board { IsBoard board.now }
        requires there { place < length board.now.conferences }
        requires tally { IsTally board.now self.old.tally }
        requires seen { AreSeen board.now self.old.tally.posts self.old.seen }
        requires loaded { IsLoaded place self.old.seen }
        ensures seen { OnOk result (AreSeen board.now (self.old.tally.posts ++ (place, message.now) ∷ []) self.new.seen) }
        ensures rest { OnOk result (self.new ≡ record self.old { seen = self.new.seen }) }
    {
        let own = message.msgid.as_slice();
        if !own.is_empty() {
            return self.seen.add(alloc, place, own);
        }
        let number = self.tally.slots[usize::from(place)] + 1;
        let generated = msgid_of(alloc, board, place, number)?;
        self.seen.add(alloc, place, generated.as_slice())
    }

    /// Posts the message in a place of the packet, from 1, for which there is room.
    fn post(
        &mut self,
        alloc: Global,
        board: &StoredBoard,
        at: u32,
        place: u8,
        message: Message,
    ) -> Result<(), AllocError>
        requires board { IsBoard board.now }
        requires there { place < length board.now.conferences }
        requires tally { IsTally board.now self.old.tally }
        requires seen { AreSeen board.now self.old.tally.posts self.old.seen }
        requires loaded { IsLoaded place self.old.seen }
        requires room { is_full board.now self.old.tally.posts (place, message) ≡ false }
        requires takes { MayTake board.now place message }
        ensures step { OnOk result ((self.new.lines, self.new.tally.posts) ≡ posted_as board.now at (self.old.lines, self.old.tally.posts) (place, message) None) }
        ensures known { OnOk result (IsTally board.now self.new.tally × AreSeen board.now self.new.tally.posts self.new.seen) }
    {
        self.see(alloc, board, place, &message)?;
        let number = self.tally.add(board, place, message)?;
        let conference = board.conference_of(place).number;
        add_posted(&mut self.lines, at, u32::from(conference), number)
    }

    /// Posts the draft of a message, or refuses it by one of the last two rules.
    fn take(
        &mut self,
        alloc: Global,
        board: &StoredBoard,
        at: u32,
        place: u8,
        draft: Message,
    ) -> Result<(), AllocError>
        requires board { IsBoard board.now }
        requires there { place < length board.now.conferences }
        requires tally { IsTally board.now self.old.tally }
        requires seen { AreSeen board.now self.old.tally.posts self.old.seen }
        requires takes { MayTake board.now place draft }
        ensures step { OnOk result ((self.new.lines, self.new.tally.posts) ≡ tossed_as board.now at (self.old.lines, self.old.tally.posts) (Post place draft)) }
        ensures known { OnOk result (IsTally board.now self.new.tally × AreSeen board.now self.new.tally.posts self.new.seen) }
    {
        match self.last_rule(alloc, board, place, &draft)? {
            Some(rule) => add_refused(&mut self.lines, at, rule.word()),
            None => self.post(alloc, board, at, place, draft),
        }
    }

    /// Takes a message more, in a place of the packet from 1.
    fn add_next(
        &mut self,
        alloc: Global,
        board: &StoredBoard,
        at: u32,
        message: &FtsMessage,
        now: u32,
    ) -> Result<(), AllocError>
        requires read { IsOfPacket message.now }
        requires tally { IsTally board.now self.old.tally }
        requires seen { AreSeen board.now self.old.tally.posts self.old.seen }
        ensures step { OnOk result ((self.new.lines, self.new.tally.posts) ≡ tossed_as board.now at (self.old.lines, self.old.tally.posts) (toss_verdict board.now.ledger.setup message.now now)) }
        ensures known { OnOk result (IsTally board.now self.new.tally × AreSeen board.now self.new.tally.posts self.new.seen) }
    {
        match toss_draft(alloc, &board.ledger().setup, message, now)? {
            TossDraft::Refused(rule) => add_refused(&mut self.lines, at, rule.word()),
            TossDraft::Post { place, message } => {
                self.take(alloc, board, at, place, typed(message))
            }
        }
    }
}

/// What becomes of the messages of a packet that is tossed at a moment.
pub(crate) fn tossed_of(
    alloc: Global,
    board: &StoredBoard,
    messages: &[FtsMessage],
    now: u32,
) -> Result<Tossed, AllocError>
    requires read { AreRead messages.now }
    ensures { IfOk result (AreTossed now board.now messages.now) }
{
    let mut tossed = Tossed::new(alloc, board)?;
    let mut at = 0;
    for message in messages {
        at += 1;
        tossed.add_next(alloc, board, at, message, now)?;
    }
    Ok(tossed)
}
