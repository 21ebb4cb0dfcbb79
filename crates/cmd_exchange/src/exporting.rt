//! The command `export`.
ghost use Rattle.std.specs.Prelude.{◌≡◌, ◌≢◌, Err, IsTrue};
ghost use Rattle.cmd_board.specs.Causes.{HaveCauses};
ghost use Rattle.cmd_board.specs.Halts.{halted, told};
ghost use Rattle.cmd_board.specs.Keeping.{KeepsFiles, went};
ghost use Rattle.cmd_board.specs.Kept.{AreSure, IsKept};
ghost use Rattle.cmd_board.specs.State.{State, Stores};
ghost use Rattle.door_export.specs.declared.exporting.ExportError.TheVariants.{Doubt};
ghost use Rattle.door_outside.specs.Name.{HasParts};
ghost use Rattle.entry_runs.specs.Door.{World};
ghost use Rattle.entry_runs.specs.Entry.{IsAt, Works};
ghost use Rattle.entry_runs.specs.Promise.{ended};
ghost use Rattle.cmd_exchange.specs.Export.{exports, packet_line};
ghost use Rattle.cmd_exchange.specs.Exporting.{export_halt};

use cmd_board::{BoardHalt, Loaded, find, keep_board, take_board};
use door_export::{ExportError, Exported};
use door_outside::{Host, Shelf, ShelfName};
use shelf_files::Refusal;
use std::alloc::Global;

/// What an export of a board in no doubt answers, or why the command isn't carried out.
fn answered(exported: Result<Exported, ExportError>) -> Result<Exported, BoardHalt>
    requires { exported ≢ Err Doubt }
    ensures { result ≡ halted export_halt exported }
{
    match exported {
        Ok(packet) => Ok(packet),
        Err(ExportError::NoUser) => Err(BoardHalt::Refused(Refusal::NoUser)),
        Err(ExportError::Limit) => Err(BoardHalt::Refused(Refusal::Limit)),
        Err(ExportError::Packets) => Err(BoardHalt::Refused(Refusal::Packets)),
        Err(ExportError::DiskFault) => Err(BoardHalt::DiskFault),
        Err(ExportError::Doubt) => unreachable!(),
        Err(ExportError::Damaged(damage)) => Err(BoardHalt::Damaged(damage)),
        Err(ExportError::ShelfFault) => Err(BoardHalt::ShelfFault),
        Err(ExportError::OutOfMemory) => Err(BoardHalt::OutOfMemory),
    }
}

/// Hands out to the user of a name, ignoring ASCII case, the messages that are offered to him, at most as many as the
/// limit, as CONTROL.DAT and MESSAGES.DAT of a folder. `now` is in Unix seconds.
///
/// It is refused where there is no board, then where no user has the name, then where the limit isn't 1 to 2,000,
/// then where his last packet has the number 4,294,967,295. A damage that a fetched message shows, which comes only
/// from a host that doesn't tell its files, is answered as that of a load is, and nothing has changed. Where the shelf
/// fails, the offer is kept, and the next export offers the same messages.
pub fn export<H: Host, S: Shelf>(
    alloc: Global,
    host: &mut H,
    shelf: &mut S,
    kept: &mut Option<Loaded>,
    user: &[u8],
    limit: u32,
    folder: &ShelfName,
    now: u32,
) -> Result<Exported, BoardHalt>
    requires folder { HasParts 3 folder.now }
    requires sure { AreSure kept.old }
    requires kept { IsTrue H.tells → IsKept kept.old (H.disk host.old) }
    ensures works { IsTrue H.tells → IsTrue S.tells → (world : World State) → IsAt Stores world (H.disk host.old) (S.files shelf.old) → Works Stores (exports user.now limit folder.now now) world (H.disk host.old) (H.disk host.new) (S.files shelf.new) (told packet_line result) }
    ensures kept { IsTrue H.tells → IsKept kept.new (H.disk host.new) }
    ensures sure { AreSure kept.new }
    ensures keeps { IsTrue H.tells → KeepsFiles (H.disk host.old) (H.disk host.new) (went result) }
    ensures causes { HaveCauses H.disk_faults H.voice_faults S.faults host.old host.new shelf.old shelf.new (ended (told packet_line result)) }
{
    find(alloc, host, kept)?;
    let mut board = take_board(kept)?;
    let exported = door_export::export(alloc, &mut board, host, shelf, user, limit, folder, now);
    keep_board(kept, board);
    answered(exported)
}
