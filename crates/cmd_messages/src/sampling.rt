//! The command `sample`.
ghost use Rattle.std.specs.Prelude.{◌≡◌, ◌≤◌, ◌<◌, length, map, IsTrue, IsErrOf};
ghost use Rattle.cmd_board.specs.Causes.{HostHasCauses};
ghost use Rattle.cmd_board.specs.Enroll.{first_refusal};
ghost use Rattle.cmd_board.specs.Halts.{told};
ghost use Rattle.cmd_board.specs.Kept.{AreSure, IsKept};
ghost use Rattle.cmd_board.specs.State.{State, Stores};
ghost use Rattle.cmd_board.specs.declared.halt.BoardHalt.TheVariants.{DiskFault};
ghost use Rattle.cmd_board.specs.WriteBound.{FilesKeepBound, KeepsWriteBound};
ghost use Rattle.board_layout.specs.Valid.{IsBoard};
ghost use Rattle.door_outside.specs.Shelf.{ShelfFiles};
ghost use Rattle.entry_runs.specs.Door.{World};
ghost use Rattle.entry_runs.specs.Entry.{IsAt, Works};
ghost use Rattle.entry_runs.specs.Promise.{ended};
ghost use Rattle.intent_journal.specs.Journal.{IsClosed};
ghost use Rattle.post_changes.specs.Posted.{spread};
ghost use Rattle.cmd_messages.specs.Sample.{sampled_line, samples, slot_counts, slots_case};
ghost use Rattle.cmd_messages.specs.Sampling.{IsSampling, MaySample};

use crate::posts::{Sampling, sampling_of};
use board_layout::StoredBoard;
use cmd_board::{
    Board, BoardHalt, Change, Loaded, Refusal, board_in, find, make_change, size_refusal,
};
use door_outside::Host;
use jam_layout::SLOT_LIMIT;
use std::alloc::Global;

/// How many messages a sample may have.
const COUNT_LIMIT: u32 = 5_000;

/// The refusal where a conference would have too many slots with the messages of a sample, or None. It tells the slots
/// of the first such conference by place.
fn slots_refusal(board: &StoredBoard, sampling: &Sampling) -> Option<Refusal>
    requires sampling { IsSampling board.now sampling.now }
    requires few { length sampling.now.posts ≤ 5000 }
    ensures { result ≡ first_refusal (map slots_case (slot_counts (spread sampling.now.posts board.now))) }
{
    for (place, base) in board.bases().iter().enumerate() {
        let slots = base.slot_count() + sampling.posted[place];
        if slots as usize > SLOT_LIMIT {
            return Some(Refusal::Slots(u64::from(slots)));
        }
    }
    None
}

/// The change that appends a sample, or why it is refused. That is the first that applies of a count out of range, too
/// many slots, and files that would be too long. The count is judged before memory is taken.
fn prepared(
    alloc: Global,
    board: &Board,
    seed: u32,
    count: u32,
    now: u32,
) -> Result<Change, BoardHalt>
    requires { IsBoard board.now.board }
    ensures { MaySample seed count now board.now.board result }
{
    if count == 0 || count > COUNT_LIMIT {
        return Err(BoardHalt::Refused(Refusal::Count));
    }
    let sampling = sampling_of(alloc, board.stored(), seed, count, now)?;
    if let Some(refusal) = slots_refusal(board.stored(), &sampling) {
        return Err(BoardHalt::Refused(refusal));
    }
    let change = Change::Spread {
        posts: sampling.posts,
    };
    if let Some(refusal) = size_refusal(board, &change) {
        return Err(BoardHalt::Refused(refusal));
    }
    Ok(change)
}

/// Appends so many made-up messages, which a seed determines, in one change, and answers how many they are. `now` is
/// the moment in Unix seconds at which they come into the base.
///
/// It is refused where there is no board, and then as the first of these applies:
///
/// - The count is 0 or above 5,000.
/// - A conference would have more than 9,999 slots. The first such conference by place is told.
/// - The files would be too long.
pub fn sample<H: Host>(
    alloc: Global,
    host: &mut H,
    kept: &mut Option<Loaded>,
    seed: u32,
    count: u32,
    now: u32,
) -> Result<u32, BoardHalt>
    requires sure { AreSure kept.old }
    requires kept { IsTrue H.tells → IsKept kept.old (H.disk host.old) }
    ensures works { IsTrue H.tells → (world : World State) (shelf : ShelfFiles) → IsAt Stores world (H.disk host.old) shelf → Works Stores (samples seed count now) world (H.disk host.old) (H.disk host.new) shelf (told sampled_line result) }
    ensures kept { IsTrue H.tells → IsKept kept.new (H.disk host.new) }
    ensures sure { AreSure kept.new }
    ensures wrote { IsTrue H.tells → IsClosed ((H.disk host.old).files 1) → (shelf : ShelfFiles) → KeepsWriteBound (samples seed count now) (H.disk host.old) (H.disk host.new) shelf }
    ensures wrote_between { IsTrue H.tells → IsClosed ((H.disk host.old).files 1) → ¬ IsErrOf result DiskFault → FilesKeepBound (H.disk host.old) (H.disk host.new) }
    ensures causes { HostHasCauses H.disk_faults H.voice_faults host.old host.new (ended (told sampled_line result)) }
{
    find(alloc, host, kept)?;
    let board = board_in(kept)?;
    let change = prepared(alloc, board, seed, count, now)?;
    make_change(alloc, host, kept, &change)?;
    Ok(count)
}
