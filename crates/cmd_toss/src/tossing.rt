//! The command `toss`.
ghost use Rattle.std.specs.Prelude.{◌≡◌, ℕ, List, Ok, length, IfOk, IsTrue, IsErrOf};
ghost use Rattle.cmd_board.specs.Causes.{HaveCauses};
ghost use Rattle.cmd_board.specs.Halts.{told};
ghost use Rattle.cmd_board.specs.Keeping.{KeepsFiles, went};
ghost use Rattle.cmd_board.specs.Kept.{AreSure, IsKept};
ghost use Rattle.cmd_board.specs.State.{State, Stores};
ghost use Rattle.cmd_board.specs.declared.halt.BoardHalt.TheVariants.{DiskFault};
ghost use Rattle.cmd_board.specs.WriteBound.{FilesKeepBound, KeepsWriteBound};
ghost use Rattle.board_layout.specs.Board as Boards;
ghost use Rattle.board_layout.specs.Valid.{IsBoard};
ghost use Rattle.entry_runs.specs.Door.{World};
ghost use Rattle.entry_runs.specs.Entry.{IsAt, Works};
ghost use Rattle.entry_runs.specs.Promise.{ended};
ghost use Rattle.fts_packet.specs.declared.packet.FtsMessage as Fts;
ghost use Rattle.intent_journal.specs.Journal.{IsClosed};
ghost use Rattle.cmd_toss.specs.Toss.{tosses};
ghost use Rattle.cmd_toss.specs.Tossing.{AreRead, AreTossed, MayToss, PostsTossed};

use crate::packet_file::packet_in;
use crate::tossed::{Tossed, tossed_of};
use byte_lists::Bytes;
use cmd_board::{Board, BoardHalt, Change, Loaded, board_in, find, make_change};
use door_outside::{Host, Shelf, ShelfName};
use fts_packet::FtsPacket;
use mail_intake::with_counts;
use std::alloc::{AllocError, Global};

/// The change that posts what was taken of a packet, and what is to be said of it.
#[derive(Debug, Drop)]
pub(crate) struct Tossing {
    pub(crate) change: Change,
    pub(crate) reply: Bytes,
}

/// The change that posts what was taken of so many messages, and the lines with their counts.
#[tactic(auto, using(crate::proofs::TossAlike::posts_change))]
fn ended_with(tossed: Tossed, count: usize) -> Result<Tossing, AllocError>
    ensures may { (now : ℕ) (b : Boards.Board) (messages : List Fts.FtsMessage) → AreTossed now b messages tossed → length messages ≡ count → IfOk result (λ tossing. MayToss now messages b (Ok tossing)) }
    ensures change { (now : ℕ) (b : Boards.Board) (messages : List Fts.FtsMessage) → AreTossed now b messages tossed → IfOk result (PostsTossed now messages b) }
{
    let Tossed { tally, lines, .. } = tossed;
    let reply = with_counts(lines, tally.posts.len(), count)?;
    let change = Change::Spread { posts: tally.posts };
    Ok(Tossing { change, reply })
}

/// The change by which the messages of a packet come into the conferences at a moment.
fn prepared(
    alloc: Global,
    board: &Board,
    messages: &FtsPacket,
    now: u32,
) -> Result<Tossing, BoardHalt>
    requires board { IsBoard board.now.board }
    requires read { AreRead messages.now }
    ensures may { MayToss now messages.now board.now.board result }
    ensures change { IfOk result (PostsTossed now messages.now board.now.board) }
{
    let tossed = tossed_of(alloc, board.stored(), messages.as_slice(), now)?;
    Ok(ended_with(tossed, messages.len())?)
}

/// Puts the messages of a type 2 packet (FTS-0001) into the conferences in one change. It answers a line for each, and
/// one with the counts. `now` is the moment in Unix seconds at which they come into the base. A message whose date
/// doesn't read was written then too.
///
/// Echomail goes to the first conference of kind echo whose name is its tag, ignoring ASCII case. Net mail goes to the
/// first net conference. Each message is judged behind the ones accepted before it. A message without a msgid gets the
/// one that is generated for its number, and is posted again when its packet is tossed again.
///
/// It is refused where there is no board, then where the file isn't there or has more than 4,194,304 bytes, then for
/// the packet's first fault.
pub fn toss<H: Host, S: Shelf>(
    alloc: Global,
    host: &mut H,
    shelf: &mut S,
    kept: &mut Option<Loaded>,
    file: &ShelfName,
    now: u32,
) -> Result<Bytes, BoardHalt>
    requires sure { AreSure kept.old }
    requires kept { IsTrue H.tells → IsKept kept.old (H.disk host.old) }
    ensures works { IsTrue H.tells → IsTrue S.tells → (world : World State) → IsAt Stores world (H.disk host.old) (S.files shelf.old) → Works Stores (tosses file.now now) world (H.disk host.old) (H.disk host.new) (S.files shelf.new) (told (λ text. text) result) }
    ensures kept { IsTrue H.tells → IsKept kept.new (H.disk host.new) }
    ensures sure { AreSure kept.new }
    ensures keeps { IsTrue H.tells → KeepsFiles (H.disk host.old) (H.disk host.new) (went result) }
    ensures wrote { IsTrue H.tells → IsTrue S.tells → IsClosed ((H.disk host.old).files 1) → KeepsWriteBound (tosses file.now now) (H.disk host.old) (H.disk host.new) (S.files shelf.old) }
    ensures wrote_between { IsTrue H.tells → IsClosed ((H.disk host.old).files 1) → ¬ IsErrOf result DiskFault → FilesKeepBound (H.disk host.old) (H.disk host.new) }
    ensures causes { HaveCauses H.disk_faults H.voice_faults S.faults host.old host.new shelf.old shelf.new (ended (told (λ text. text) result)) }
{
    find(alloc, host, kept)?;
    let board = board_in(kept)?;
    let messages = packet_in(alloc, shelf, file)?;
    let tossing = prepared(alloc, board, &messages, now)?;
    make_change(alloc, host, kept, &tossing.change)?;
    Ok(tossing.reply)
}
