//! The command `import`.
ghost use Rattle.std.specs.Prelude.{◌≡◌, ◌<◌, ℕ, [], ◌∷◌, ◌+◌, length, nat_lt, IsTrue, IsErrOf};
ghost use Rattle.cmd_board.specs.Causes.{HaveCauses};
ghost use Rattle.cmd_board.specs.Enroll.{first_refusal};
ghost use Rattle.cmd_board.specs.Halts.{told};
ghost use Rattle.cmd_board.specs.Keeping.{KeepsFiles, went};
ghost use Rattle.cmd_board.specs.Kept.{AreSure, IsKept};
ghost use Rattle.cmd_board.specs.State.{State, Stores};
ghost use Rattle.cmd_board.specs.declared.halt.BoardHalt.TheVariants.{DiskFault};
ghost use Rattle.cmd_board.specs.WriteBound.{FilesKeepBound, KeepsWriteBound};
ghost use Rattle.board_layout.specs.Valid.{IsBoard};
ghost use Rattle.entry_runs.specs.Door.{World};
ghost use Rattle.entry_runs.specs.Entry.{IsAt, Works};
ghost use Rattle.entry_runs.specs.Promise.{ended};
ghost use Rattle.intent_journal.specs.Journal.{IsClosed};
ghost use Rattle.jam_layout.specs.Limits.{slot_limit};
ghost use Rattle.cmd_board.specs.shelf_files.Sheets.{AreSheets};
ghost use Rattle.cmd_board.specs.shelf_files.declared.refusal.Refusal.TheVariants.{Slots};
ghost use Rattle.cmd_board.specs.Places.{slot_count};
ghost use Rattle.cmd_messages.specs.Import.{imported_line, imports};
ghost use Rattle.cmd_messages.specs.Importing.{MayImport};

use crate::entries::messages_of;
use cmd_board::{
    Board, BoardHalt, Change, Loaded, Refusal, board_in, find, kind_in, make_change, place_in,
    sheet_in, size_refusal,
};
use door_outside::{Host, Shelf, ShelfName};
use import_sheet::Sheets;
use jam_layout::SLOT_LIMIT;
use jam_records::Messages;
use std::alloc::Global;

/// The refusal where the conference in a place would have too many slots with these messages, or None.
fn slots_refusal(board: &Board, place: u8, messages: &Messages) -> Option<Refusal>
    requires { place < length board.now.board.conferences }
    ensures { result ≡ first_refusal ((nat_lt slot_limit (slot_count place board.now.board + length messages.now), Slots (slot_count place board.now.board + length messages.now)) ∷ []) }
{
    let slots = u64::from(board.slot_count(place)) + messages.as_slice().len() as u64;
    if slots > SLOT_LIMIT as u64 {
        return Some(Refusal::Slots(slots));
    }
    None
}

/// An import that may be made: by which change, and of how many messages.
#[derive(Debug, Drop)]
struct Importing {
    change: Change,
    count: u32,
}

/// The import of entries into the conference in a place, or why it is refused. That is the first that applies of too
/// many slots, and of files that would be too long.
fn prepared(
    alloc: Global,
    board: &Board,
    place: u8,
    entries: Sheets,
    now: u32,
) -> Result<Importing, BoardHalt>
    requires board { IsBoard board.now.board }
    requires place { place < length board.now.board.conferences }
    requires read { AreSheets entries }
    ensures { (conference : ℕ) → MayImport conference now place entries board.now.board result }
{
    let messages = messages_of(alloc, kind_in(board, place), now, entries)?;
    if let Some(refusal) = slots_refusal(board, place, &messages) {
        return Err(BoardHalt::Refused(refusal));
    }
    let count = messages.len() as u32;
    let change = Change::Append { place, messages };
    if let Some(refusal) = size_refusal(board, &change) {
        return Err(BoardHalt::Refused(refusal));
    }
    Ok(Importing { change, count })
}

/// Appends all messages of a sheet to the conference of a number in one change. It answers how many they are. `now` is
/// the moment in Unix seconds at which they come into the base. A message without a date was written then too. In a net
/// conference all are private. A sheet without messages changes nothing.
///
/// It is refused where there is no board, and then as the first of these applies:
///
/// - No conference has the number.
/// - The sheet isn't there, is too long or has a fault.
/// - The conference would have more than 9,999 slots.
/// - The files would be too long.
pub fn import<H: Host, S: Shelf>(
    alloc: Global,
    host: &mut H,
    shelf: &mut S,
    kept: &mut Option<Loaded>,
    conference: u32,
    file: &ShelfName,
    now: u32,
) -> Result<u32, BoardHalt>
    requires sure { AreSure kept.old }
    requires kept { IsTrue H.tells → IsKept kept.old (H.disk host.old) }
    ensures works { IsTrue H.tells → IsTrue S.tells → (world : World State) → IsAt Stores world (H.disk host.old) (S.files shelf.old) → Works Stores (imports conference file.now now) world (H.disk host.old) (H.disk host.new) (S.files shelf.new) (told (imported_line conference) result) }
    ensures kept { IsTrue H.tells → IsKept kept.new (H.disk host.new) }
    ensures sure { AreSure kept.new }
    ensures keeps { IsTrue H.tells → KeepsFiles (H.disk host.old) (H.disk host.new) (went result) }
    ensures wrote { IsTrue H.tells → IsTrue S.tells → IsClosed ((H.disk host.old).files 1) → KeepsWriteBound (imports conference file.now now) (H.disk host.old) (H.disk host.new) (S.files shelf.old) }
    ensures wrote_between { IsTrue H.tells → IsClosed ((H.disk host.old).files 1) → ¬ IsErrOf result DiskFault → FilesKeepBound (H.disk host.old) (H.disk host.new) }
    ensures causes { HaveCauses H.disk_faults H.voice_faults S.faults host.old host.new shelf.old shelf.new (ended (told (imported_line conference) result)) }
{
    find(alloc, host, kept)?;
    let board = board_in(kept)?;
    let place = place_in(board, conference)?;
    let entries = sheet_in(alloc, shelf, file)?;
    let importing = prepared(alloc, board, place, entries, now)?;
    make_change(alloc, host, kept, &importing.change)?;
    Ok(importing.count)
}
