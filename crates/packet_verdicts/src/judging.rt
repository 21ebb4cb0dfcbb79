ghost use Rattle.std.specs.Prelude.{◌≡◌, ◌≤◌, ◌<◌, ◌+◌, ◌++◌, [], ◌∷◌, length, All, is_none, IfOk, OnOk, IfSome, IsSome};
ghost use Rattle.board_layout.specs.Lookups.{user_of as user_with_id};
ghost use Rattle.board_layout.specs.Valid.{IsBoard};
ghost use Rattle.board_ledger.specs.Limits.{verdict_limit};
ghost use Rattle.board_layout.specs.jam_layout.Limits.{slot_limit};
ghost use Rattle.packet_verdicts.specs.Accepted.{IsIndexed};
ghost use Rattle.packet_verdicts.specs.Judged.{judged, judged_next, refused_count, outcome_of, posts_after, room_left};
ghost use Rattle.packet_verdicts.specs.Judging.{IsJudging};
ghost use Rattle.post_changes.specs.Posted.{spread};
ghost use Rattle.packet_verdicts.specs.Typed.{IsTypedPost};
ghost use Rattle.packet_verdicts.specs.Views.{addressed_place as place_in, view_of};

use crate::accepted::Accepted;
use crate::lookups::place_of;
use crate::outcome::{Outcome, Outcomes};
use crate::replies::reply_seen;
use crate::views::{conference_seen, user_view};
use board_layout::{BOARD_LIMIT, StoredBoard, typed};
use board_ledger::UPLOAD_SIZE;
use jam_records::Message;
use netmail_rules::{Rule, Verdict, View, judge, new_bytes};
use post_changes::Posts;
use qwk_blocks::{QwkMessage, QwkMessages};
use std::alloc::{AllocError, Global};

/// What a board makes of the messages of a packet.
#[derive(Debug, Drop)]
pub struct Judged {
    /// What became of each message, in their order.
    pub outcomes: Outcomes,
    /// The drafts of those that were accepted, in their order.
    pub posts: Posts,
    /// How many were refused.
    pub refused: u32,
}

/// What is known between two messages.
#[derive(Debug, Drop)]
pub(crate) struct Judging {
    /// The id of the user who uploads them.
    pub(crate) user: u32,
    /// What the rules see, with the conference and the reply of the last message.
    pub(crate) view: View,
    /// The drafts that were accepted.
    pub(crate) accepted: Accepted,
    /// What became of the messages.
    pub(crate) outcomes: Outcomes,
    /// How many were refused.
    pub(crate) refused: u32,
}

impl Judging {
    /// Before the first message of a user.
    fn new(alloc: Global, board: &StoredBoard, user: u32) -> Result<Judging, AllocError>
        requires { IsSome (user_with_id user board.now) }
        ensures judging { IfOk result (λ judging. IsJudging board.now judging) }
        ensures user { IfOk result (λ judging. judging.user ≡ user) }
        ensures outcomes { IfOk result (λ judging. judging.outcomes ≡ []) }
        ensures posts { IfOk result (λ judging. judging.accepted.posts ≡ []) }
    {
        let uploader = board.user_of(user);
        let room = BOARD_LIMIT.saturating_sub(board.size() + UPLOAD_SIZE as u64);
        Ok(Judging {
            user,
            view: user_view(alloc, board, uploader, room)?,
            accepted: Accepted::new(alloc)?,
            outcomes: Outcomes::new(alloc),
            refused: 0,
        })
    }

    /// Looks at the conference and the reference of a message. It answers the place of the conference, or None where
    /// there is none.
    fn look(
        &mut self,
        alloc: Global,
        board: &StoredBoard,
        message: &QwkMessage,
    ) -> Result<Option<u8>, AllocError>
        requires user { IsSome (user_with_id self.old.user board.now) }
        requires judging { IsJudging board.now self.old }
        requires few { length self.old.outcomes < verdict_limit }
        ensures place { IfOk result (λ place. place ≡ place_in message.now.header.number board.now) }
        ensures within { IfOk result (λ place. IfSome place (λ place. place < length board.now.ledger.setup.conferences)) }
        ensures board { IsBoard board.now }
        ensures view { OnOk result (self.new.view ≡ view_of (spread self.old.accepted.posts board.now) self.old.user message.now) }
        ensures seen { IfOk result (λ place. is_none place ≡ is_none self.new.view.conference) }
        ensures slots { OnOk result (IfSome self.new.view.conference (λ conference. conference.slots ≤ slot_limit + verdict_limit)) }
        ensures rest { OnOk result (self.new ≡ record self.old { view = self.new.view }) }
    {
        let header = &message.header;
        let place = place_of(board, header.number);
        let user = board.user_of(self.user);
        let conference = conference_seen(board, user, &self.accepted, place);
        let reference = header.reference;
        let reply = reply_seen(alloc, board, self.user, &self.accepted, place, reference)?;
        self.view.conference = conference;
        self.view.reply = reply;
        Ok(place)
    }

    /// Adds a refusal.
    fn refuse(&mut self, rule: Rule) -> Result<(), AllocError>
        requires few { length self.old.outcomes < verdict_limit }
        requires refused { self.old.refused ≡ refused_count self.old.outcomes }
        ensures outcomes { OnOk result (self.new.outcomes ≡ self.old.outcomes ++ Outcome.Refused rule ∷ []) }
        ensures refused { OnOk result (self.new.refused ≡ refused_count self.new.outcomes) }
        ensures rest { OnOk result (self.new ≡ record self.old { outcomes = self.new.outcomes; refused = self.new.refused }) }
    {
        self.outcomes.add(Outcome::Refused(rule))?;
        self.refused += 1;
        Ok(())
    }

    /// Adds a draft, for the place of the conference that the rules see. Where they see none, it adds a refusal.
    fn accept(&mut self, place: Option<u8>, draft: Message) -> Result<(), AllocError>
        requires indexed { IsIndexed self.old.accepted }
        requires few_posts { length self.old.accepted.posts ≤ length self.old.outcomes }
        requires few { length self.old.outcomes < verdict_limit }
        requires refused { self.old.refused ≡ refused_count self.old.outcomes }
        requires place { IfSome place (λ place. place < 64) }
        requires seen { is_none place ≡ is_none self.old.view.conference }
        requires slots { IfSome self.old.view.conference (λ conference. conference.slots ≤ slot_limit + verdict_limit) }
        requires draft { draft.msgid ≡ [] }
        ensures outcomes { OnOk result (self.new.outcomes ≡ self.old.outcomes ++ outcome_of self.old.view.conference (Verdict.Post draft) ∷ []) }
        ensures posts { OnOk result (self.new.accepted.posts ≡ posts_after place (Verdict.Post draft) self.old.accepted.posts) }
        ensures indexed { OnOk result (IsIndexed self.new.accepted) }
        ensures refused { OnOk result (self.new.refused ≡ refused_count self.new.outcomes) }
        ensures view { OnOk result (self.new.view ≡ record self.old.view { room = room_left self.old.view.conference draft self.old.view.room }) }
        ensures user { OnOk result (self.new.user ≡ self.old.user) }
    {
        let (Some(place), Some(conference)) = (place, self.view.conference) else {
            return self.refuse(Rule::Conference);
        };
        let bytes = new_bytes(&draft, conference.msgid_len);
        let room = u128::from(self.view.room).saturating_sub(bytes);
        self.view.room = room as u64;
        self.outcomes.add(Outcome::Posted {
            conference: conference.number,
            number: conference.slots + 1,
        })?;
        self.accepted.add(place, typed(draft))
    }

    /// Judges a message on the board with the drafts that were accepted so far.
    fn judge_next(
        &mut self,
        alloc: Global,
        board: &StoredBoard,
        message: &QwkMessage,
        now: u32,
    ) -> Result<(), AllocError>
        requires user { IsSome (user_with_id self.old.user board.now) }
        requires judging { IsJudging board.now self.old }
        requires few { length self.old.outcomes < verdict_limit }
        ensures user { OnOk result (self.new.user ≡ self.old.user) }
        ensures judging { OnOk result (IsJudging board.now self.new) }
        ensures step { OnOk result ((self.new.outcomes, self.new.accepted.posts) ≡ judged_next board.now self.old.user now (self.old.outcomes, self.old.accepted.posts) message.now) }
    {
        let place = self.look(alloc, board, message)?;
        match judge(alloc, &self.view, message, now)? {
            Verdict::Refused(rule) => self.refuse(rule),
            Verdict::Post(draft) => self.accept(place, draft),
        }
    }
}

/// What a board makes of messages that the user of an id, from 1, uploads at a moment in Unix seconds, one after the
/// other. It judges each on the board with the drafts that were accepted before it. The rule `full` counts the 42 bytes
/// of the upload record too. The user is there, and there are at most 8,191 messages. The board isn't copied, and to
/// judge a message it doesn't go over the others.
///
/// The error comes where there is no memory.
#[tactic(auto, unfolding(crate::specs::Judged::judged))]
pub fn judge_all(
    alloc: Global,
    board: &StoredBoard,
    user: u32,
    messages: &QwkMessages,
    now: u32,
) -> Result<Judged, AllocError>
    requires user { IsSome (user_with_id user board.now) }
    requires few { length messages.now ≤ verdict_limit }
    ensures judged { IfOk result (λ all. (all.outcomes, all.posts) ≡ judged board.now user now messages.now) }
    ensures refused { IfOk result (λ all. all.refused ≡ refused_count all.outcomes) }
    ensures typed { IfOk result (λ all. All IsTypedPost all.posts) }
{
    let mut judging = Judging::new(alloc, board, user)?;
    for message in messages.as_slice() {
        judging.judge_next(alloc, board, message, now)?;
    }
    let Judging {
        accepted,
        outcomes,
        refused,
        ..
    } = judging;
    Ok(Judged {
        outcomes,
        posts: accepted.posts,
        refused,
    })
}
