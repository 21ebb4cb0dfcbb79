//! The command `adopt`.
ghost use Rattle.std.specs.Prelude.{◌≡◌, ◌<◌, ◌++◌, ℕ, List, codes, length, Ok, IfOk, IsTrue, IsErrOf};
ghost use Rattle.cmd_board.specs.Causes.{HaveCauses};
ghost use Rattle.cmd_board.specs.Halts.{told};
ghost use Rattle.cmd_board.specs.Keeping.{KeepsFiles, went};
ghost use Rattle.cmd_board.specs.Kept.{AreSure, IsKept};
ghost use Rattle.cmd_board.specs.State.{State, Stores};
ghost use Rattle.cmd_board.specs.declared.halt.BoardHalt.TheVariants.{DiskFault};
ghost use Rattle.cmd_board.specs.WriteBound.{FilesKeepBound, KeepsWriteBound};
ghost use Rattle.board_layout.specs.Board as Boards;
ghost use Rattle.board_layout.specs.Valid.{IsBoard};
ghost use Rattle.door_outside.specs.Name.{IsShelfName};
ghost use Rattle.entry_runs.specs.Door.{World};
ghost use Rattle.entry_runs.specs.Entry.{IsAt, Works};
ghost use Rattle.entry_runs.specs.Promise.{ended};
ghost use Rattle.intent_journal.specs.Journal.{IsClosed};
ghost use Rattle.jam_adopt.specs.declared.found.Found as Founds;
ghost use Rattle.cmd_adopt.specs.Adopt.{adopts};
ghost use Rattle.cmd_adopt.specs.Adopting.{AreAdopted, AreRight, MayAdopt, TakesOver};

use crate::adopted::{Adopted, Target, adopted_of};
use crate::base_files::base_in;
use byte_lists::Bytes;
use cmd_board::{Board, BoardHalt, Change, Loaded, board_in, find, make_change, place_in};
use door_outside::{Host, Shelf};
use jam_adopt::Foreign;
use mail_intake::with_counts;
use std::alloc::{AllocError, Global};

/// The change that takes a base over, and what is to be said of it.
#[derive(Debug, Drop)]
pub(crate) struct Adopting {
    pub(crate) change: Change,
    pub(crate) reply: Bytes,
}

/// The change that posts what was taken of so many records of a base, and the lines with their counts.
#[tactic(auto, using(crate::proofs::AdoptAlike::posts_change))]
fn ended_with(adopted: Adopted, count: usize) -> Result<Adopting, AllocError>
    ensures may { (conference place : ℕ) (b : Boards.Board) (records : List Founds.Found) → AreAdopted conference place b records adopted → length records ≡ count → IfOk result (λ adopting. MayAdopt conference place records b (Ok adopting)) }
    ensures change { (conference place : ℕ) (b : Boards.Board) (records : List Founds.Found) → AreAdopted conference place b records adopted → IfOk result (TakesOver conference place records b) }
{
    let Adopted { tally, lines } = adopted;
    let reply = with_counts(lines, tally.posts.len(), count)?;
    let change = Change::Spread { posts: tally.posts };
    Ok(Adopting { change, reply })
}

/// The change that takes the records of a base into the conference of this number, which has this place.
fn prepared(
    alloc: Global,
    board: &Board,
    conference: u32,
    place: u8,
    records: Foreign,
) -> Result<Adopting, BoardHalt>
    requires board { IsBoard board.now.board }
    requires place { place < length board.now.board.conferences }
    requires right { AreRight records }
    ensures may { MayAdopt conference place records board.now.board result }
    ensures change { IfOk result (TakesOver conference place records board.now.board) }
{
    let count = records.len();
    let target = Target { conference, place };
    let adopted = adopted_of(alloc, board.stored(), target, records)?;
    Ok(ended_with(adopted, count)?)
}

/// Appends the messages of another tool's base to the conference of a number in one change, in the order of its .JDX.
/// It answers a line for each record that isn't passed over, and one with the counts. The base is the files of the
/// shelf with this prefix and the endings .JHR, .JDX and .JDT, each of at most 16,777,216 bytes (JAM message base
/// proposal, revision 1). .JLR isn't read. A message without a MSGID that can be kept gets the one that is generated
/// for its number. In a net conference all are private. A message for which the conference or the board has no room
/// behind those before it is refused as `full`.
///
/// It is refused where there is no board, and else for the first of these that applies:
///
/// - No conference has the number.
/// - .JHR, .JDX or .JDT, in this order, isn't there or is too long.
/// - .JHR has fewer than 1,024 bytes, or another signature.
pub fn adopt<H: Host, S: Shelf>(
    alloc: Global,
    host: &mut H,
    shelf: &mut S,
    kept: &mut Option<Loaded>,
    conference: u32,
    prefix: &[u8],
) -> Result<Bytes, BoardHalt>
    requires sure { AreSure kept.old }
    requires kept { IsTrue H.tells → IsKept kept.old (H.disk host.old) }
    requires prefix { IsShelfName (prefix.now ++ codes ".JHR") }
    ensures works { IsTrue H.tells → IsTrue S.tells → (world : World State) → IsAt Stores world (H.disk host.old) (S.files shelf.old) → Works Stores (adopts conference prefix.now) world (H.disk host.old) (H.disk host.new) (S.files shelf.new) (told (λ text. text) result) }
    ensures kept { IsTrue H.tells → IsKept kept.new (H.disk host.new) }
    ensures sure { AreSure kept.new }
    ensures keeps { IsTrue H.tells → KeepsFiles (H.disk host.old) (H.disk host.new) (went result) }
    ensures wrote { IsTrue H.tells → IsTrue S.tells → IsClosed ((H.disk host.old).files 1) → KeepsWriteBound (adopts conference prefix.now) (H.disk host.old) (H.disk host.new) (S.files shelf.old) }
    ensures wrote_between { IsTrue H.tells → IsClosed ((H.disk host.old).files 1) → ¬ IsErrOf result DiskFault → FilesKeepBound (H.disk host.old) (H.disk host.new) }
    ensures causes { HaveCauses H.disk_faults H.voice_faults S.faults host.old host.new shelf.old shelf.new (ended (told (λ text. text) result)) }
{
    find(alloc, host, kept)?;
    let board = board_in(kept)?;
    let place = place_in(board, conference)?;
    let records = base_in(alloc, shelf, prefix)?;
    let adopting = prepared(alloc, board, conference, place, records)?;
    make_change(alloc, host, kept, &adopting.change)?;
    Ok(adopting.reply)
}
