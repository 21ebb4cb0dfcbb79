// The messages of a sample, one after the other.
ghost use Rattle.std.specs.Prelude.{◌≡◌, ◌≤◌, ◌<◌, ◌+◌, ℕ, List, [], length, All, IfOk, OnOk};
ghost use Rattle.board_layout.specs.Board as Boards;
ghost use Rattle.board_layout.specs.Valid.{IsBoard};
ghost use Rattle.jam_layout.specs.Marks.{is_net as is_net_kind};
ghost use Rattle.jam_layout.specs.Messages.{IsTyped};
ghost use Rattle.jam_records.specs.declared.message.Message as Messages;
ghost use Rattle.cmd_board.specs.Places.{kind_of_place};
ghost use Rattle.post_changes.specs.Posted.{posts_in, spread};
ghost use Rattle.cmd_messages.specs.Sample.{drawn_replyid as replyid_with, sampled_message, sampled_posts};
ghost use Rattle.cmd_messages.specs.Sampling.{IsSampling};

use crate::draws::{Draws, Numbers};
use crate::last::last_msgid;
use crate::texts::{body_of, recipient_name, subject_of};
use board_layout::StoredBoard;
use byte_lists::{Bytes, List};
use jam_layout::typed;
use jam_records::{Kind, Message};
use post_changes::Posts;
use std::alloc::{AllocError, Global};

/// How many places there may be.
const PLACES: usize = 64;

/// The moment before which no message of a sample was written.
const FIRST_MOMENT: u32 = 1_000_000_000;

/// The messages of a sample so far.
#[derive(Debug, Drop)]
pub(crate) struct Sampling {
    /// The seed.
    pub(crate) seed: u32,
    /// The moment at which the messages come into the base.
    pub(crate) moment: u32,
    /// The numbers behind those that were used.
    pub(crate) numbers: Numbers,
    /// The messages, each with the place of its conference. Their msgids are empty.
    pub(crate) posts: Posts,
    /// For each place how many of them are for it.
    pub(crate) posted: Vec<u32>,
}

/// Whether the messages of the conference in a place go to one person at an address.
fn is_net(board: &StoredBoard, place: u8) -> bool
    requires board { IsBoard board.now }
    requires place { place < length board.now.ledger.setup.conferences }
    ensures { result ≡ is_net_kind (kind_of_place place board.now) }
{
    match board.conference_of(place).kind {
        Kind::Local => false,
        Kind::Echo => false,
        Kind::Net => true,
    }
}

/// The msgid that the message of these draws answers, or nothing, on the board with posts of which so many are for its
/// place.
fn replyid_of(
    alloc: Global,
    board: &StoredBoard,
    draws: Draws,
    posted: u32,
) -> Result<Bytes, AllocError>
    requires place { draws.place < length board.now.ledger.setup.conferences }
    requires few { posted ≤ 5000 }
    ensures { (posts : List (ℕ × Messages.Message)) → All (λ p. p.1.msgid ≡ []) posts → posted ≡ length (posts_in draws.place posts) → IfOk result (λ msgid. msgid ≡ replyid_with draws (spread posts board.now)) }
{
    if draws.reply == 0 {
        last_msgid(alloc, board, draws.place, posted)
    } else {
        Ok(Bytes::new(alloc))
    }
}

/// The message of a number of a sample, by its draws and the msgid that it answers.
fn message_of(
    alloc: Global,
    board: &StoredBoard,
    seed: u32,
    now: u32,
    number: u32,
    draws: Draws,
    replyid: Bytes,
) -> Result<Message, AllocError>
    requires board { IsBoard board.now }
    requires place { draws.place < length board.now.ledger.setup.conferences }
    requires number { number ≤ 5000 }
    ensures message { (posts : List (ℕ × Messages.Message)) → replyid ≡ replyid_with draws (spread posts board.now) → IfOk result (λ message. message ≡ sampled_message seed now number draws (spread posts board.now)) }
    ensures typed { IfOk result IsTyped }
{
    Ok(typed(Message {
        from: Bytes::from_slice(alloc, b"Sampler")?,
        to: recipient_name(alloc, board, draws.recipient)?,
        subject: subject_of(alloc, number)?,
        msgid: Bytes::new(alloc),
        replyid,
        origin: Bytes::new(alloc),
        destination: Bytes::new(alloc),
        body: body_of(alloc, seed, number, draws.lines)?,
        written: FIRST_MOMENT + number,
        received: 0,
        processed: now,
        local: false,
        private: is_net(board, draws.place),
        seen: false,
        deleted: false,
    }))
}

impl Sampling {
    /// Before the first message.
    fn new(alloc: Global, seed: u32, now: u32) -> Result<Sampling, AllocError>
        ensures sampling { (b : Boards.Board) → IfOk result (IsSampling b) }
        ensures none { IfOk result (λ sampling. sampling.posts ≡ []) }
        ensures seed { IfOk result (λ sampling. (sampling.seed ≡ seed) × (sampling.moment ≡ now)) }
    {
        let mut posted = List::new(alloc);
        posted.fill(alloc, &0, PLACES)?;
        Ok(Sampling {
            seed,
            moment: now,
            numbers: Numbers::new(seed),
            posts: Posts::new(alloc),
            posted: posted.into_vec(),
        })
    }

    /// Adds the next message. Where there is no memory, the messages are no longer of use.
    fn add_next(&mut self, alloc: Global, board: &StoredBoard) -> Result<(), AllocError>
        requires sampling { IsSampling board.now self.old }
        requires few { length self.old.posts < 5000 }
        ensures sampling { OnOk result (IsSampling board.now self.new) }
        ensures one { OnOk result (length self.new.posts ≡ length self.old.posts + 1) }
        ensures seed { OnOk result ((self.new.seed ≡ self.old.seed) × (self.new.moment ≡ self.old.moment)) }
    {
        let number = self.posts.len() as u32 + 1;
        let draws = self.numbers.draws(board);
        let place = usize::from(draws.place);
        let replyid = replyid_of(alloc, board, draws, self.posted[place])?;
        let message = message_of(alloc, board, self.seed, self.moment, number, draws, replyid)?;
        self.posted[place] += 1;
        self.posts.add((draws.place, message))
    }
}

/// So many messages of the sample of a seed, at a moment.
pub(crate) fn sampling_of(
    alloc: Global,
    board: &StoredBoard,
    seed: u32,
    count: u32,
    now: u32,
) -> Result<Sampling, AllocError>
    requires { count ≤ 5000 }
    ensures sampling { IfOk result (λ sampling. IsSampling board.now sampling) }
    ensures posts { IfOk result (λ sampling. sampling.posts ≡ sampled_posts seed now board.now count) }
{
    let mut sampling = Sampling::new(alloc, seed, now)?;
    for _ in 0..count {
        sampling.add_next(alloc, board)?;
    }
    Ok(sampling)
}
