//! The command `init`.
ghost use Rattle.std.specs.Prelude.{IsTrue};
ghost use Rattle.entry_runs.specs.Door.{World};
ghost use Rattle.entry_runs.specs.Entry.{IsAt, Works};
ghost use Rattle.entry_runs.specs.Promise.{ended};
ghost use Rattle.cmd_board.specs.Causes.{HaveCauses};
ghost use Rattle.cmd_board.specs.Halts.{told};
ghost use Rattle.cmd_board.specs.Init.{inits, made_line};
ghost use Rattle.cmd_board.specs.Keeping.{KeepsFiles, went};
ghost use Rattle.cmd_board.specs.Kept.{AreSure, IsKept};
ghost use Rattle.cmd_board.specs.State.{State, Stores};

use crate::finding::find;
use crate::halt::BoardHalt;
use crate::making::make_board;
use crate::setup::setup_in;
use door_outside::{Host, Shelf, ShelfName};
use mail_board::Loaded;
use shelf_files::Refusal;
use std::alloc::Global;

/// Makes the board of a setup file, created at a moment in Unix seconds, and answers how many conferences it has. It
/// is refused where there is a board, and then where the file isn't there, is too long or breaks a rule.
pub fn init<H: Host, S: Shelf>(
    alloc: Global,
    host: &mut H,
    shelf: &mut S,
    kept: &mut Option<Loaded>,
    file: &ShelfName,
    now: u32,
) -> Result<u8, BoardHalt>
    requires sure { AreSure kept.old }
    requires kept { IsTrue H.tells → IsKept kept.old (H.disk host.old) }
    ensures works { IsTrue H.tells → IsTrue S.tells → (world : World State) → IsAt Stores world (H.disk host.old) (S.files shelf.old) → Works Stores (inits file.now now) world (H.disk host.old) (H.disk host.new) (S.files shelf.new) (told made_line result) }
    ensures kept { IsTrue H.tells → IsKept kept.new (H.disk host.new) }
    ensures sure { AreSure kept.new }
    ensures keeps { IsTrue H.tells → KeepsFiles (H.disk host.old) (H.disk host.new) (went result) }
    ensures causes { HaveCauses H.disk_faults H.voice_faults S.faults host.old host.new shelf.old shelf.new (ended (told made_line result)) }
{
    find(alloc, host, kept)?;
    if let Some(Loaded::Ready(_)) = &*kept {
        return Err(BoardHalt::Refused(Refusal::Exists));
    }
    let setup = setup_in(alloc, shelf, file)?;
    let count = setup.conference_count();
    make_board(alloc, host, kept, setup, now)?;
    Ok(count)
}
