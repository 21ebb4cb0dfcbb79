//! What becomes of the records of another tool's base, one after the other.
ghost use Rattle.std.specs.Prelude.{◌≡◌, ◌<◌, ◌++◌, [], ℕ, length, IfOk, OnOk};
ghost use Rattle.jam_adopt.specs.declared.found.FoundVerdict.TheVariants as verdict;
ghost use Rattle.mail_intake.specs.Lines.{refused_line};
ghost use Rattle.mail_intake.specs.Tallies.{IsTally};
ghost use Rattle.jam_layout.specs.Messages.{IsTyped};
ghost use Rattle.cmd_adopt.specs.Adopted.{adopted_as, adopted_next, kept_in as kept_in_kind};
ghost use Rattle.cmd_adopt.specs.Adopting.{AreAdopted, AreRight, IsRight};

use board_layout::StoredBoard;
use byte_lists::Bytes;
use jam_adopt::{Foreign, Found, FoundVerdict};
use jam_layout::typed;
use jam_records::{Kind, Message};
use mail_intake::{Tally, add_posted, add_refused};
use post_changes::is_net;
use std::alloc::{AllocError, Global};

/// Where the messages of a base go.
#[derive(Clone, Copy, Debug)]
pub(crate) struct Target {
    /// The number of the conference.
    pub(crate) conference: u32,
    /// Its place, from 0.
    pub(crate) place: u8,
}

/// What became of the records so far.
#[derive(Debug, Drop)]
pub(crate) struct Adopted {
    /// The messages that are posted.
    pub(crate) tally: Tally,
    /// The line of each record.
    pub(crate) lines: Bytes,
}

/// A message as a conference of a kind keeps it.
fn kept_in(kind: Kind, message: Message) -> Message
    ensures kept { result ≡ kept_in_kind kind message }
    ensures typed { IsTyped result }
{
    let private = message.private || is_net(kind);
    typed(Message { private, ..message })
}

impl Adopted {
    /// Before the first record.
    fn new(alloc: Global, board: &StoredBoard) -> Result<Adopted, AllocError>
        ensures { (conference place : ℕ) → IfOk result (AreAdopted conference place board.now []) }
    {
        Ok(Adopted {
            tally: Tally::new(alloc, board)?,
            lines: Bytes::new(alloc),
        })
    }

    /// Refuses the record in a place, from 1, by the rule of a word.
    fn refuse(&mut self, place: u32, word: &[u8]) -> Result<(), AllocError>
        ensures lines { OnOk result (self.new.lines ≡ self.old.lines ++ refused_line place word.now) }
        ensures tally { OnOk result (self.new.tally ≡ self.old.tally) }
    {
        add_refused(&mut self.lines, place, word)
    }

    /// Posts the message of the record in a place, from 1, where there is room for it.
    fn take(
        &mut self,
        board: &StoredBoard,
        target: Target,
        place: u32,
        message: Message,
    ) -> Result<(), AllocError>
        requires there { target.place < length board.now.conferences }
        requires tally { IsTally board.now self.old.tally }
        requires right { IsRight (verdict.Taken message) }
        ensures step { OnOk result ((self.new.lines, self.new.tally.posts) ≡ adopted_as target.conference target.place board.now (self.old.lines, self.old.tally.posts) place (verdict.Taken message)) }
        ensures tally { OnOk result (IsTally board.now self.new.tally) }
    {
        let conference = board.conference_of(target.place);
        let message = kept_in(conference.kind, message);
        if self.tally.is_full(board, target.place, &message) {
            return self.refuse(place, b"full");
        }
        let number = self.tally.add(board, target.place, message)?;
        add_posted(&mut self.lines, place, target.conference, number)
    }

    /// Takes a record more.
    fn add_next(
        &mut self,
        board: &StoredBoard,
        target: Target,
        found: Found,
    ) -> Result<(), AllocError>
        requires there { target.place < length board.now.conferences }
        requires tally { IsTally board.now self.old.tally }
        requires right { IsRight found.verdict }
        ensures step { OnOk result ((self.new.lines, self.new.tally.posts) ≡ adopted_next target.conference target.place board.now (self.old.lines, self.old.tally.posts) found) }
        ensures tally { OnOk result (IsTally board.now self.new.tally) }
    {
        let Found { place, verdict } = found;
        match verdict {
            FoundVerdict::Refused(rule) => self.refuse(place, rule.word()),
            FoundVerdict::Taken(message) => self.take(board, target, place, message),
        }
    }
}

/// What becomes of the records of a base, for a conference that is there.
#[tactic(auto, unfolding(crate::specs::Adopted::adopted))]
pub(crate) fn adopted_of(
    alloc: Global,
    board: &StoredBoard,
    target: Target,
    records: Foreign,
) -> Result<Adopted, AllocError>
    requires there { target.place < length board.now.conferences }
    requires right { AreRight records }
    ensures { IfOk result (AreAdopted target.conference target.place board.now records) }
{
    let mut adopted = Adopted::new(alloc, board)?;
    for found in records.into_vec() {
        adopted.add_next(board, target, found)?;
    }
    Ok(adopted)
}
