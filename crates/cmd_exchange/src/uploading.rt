//! The command `upload`.
ghost use Rattle.std.specs.Prelude.{◌≡◌, ◌≢◌, Err, IsSome, IsTrue, MatchResult, None, IsErrOf};
ghost use Rattle.cmd_board.specs.Causes.{HaveCauses};
ghost use Rattle.cmd_board.specs.Halts.{halted, told};
ghost use Rattle.cmd_board.specs.Keeping.{KeepsFiles, went};
ghost use Rattle.cmd_board.specs.Kept.{AreSure, IsKept};
ghost use Rattle.cmd_board.specs.State.{State, Stores};
ghost use Rattle.cmd_board.specs.WriteBound.{FilesKeepBound, KeepsWriteBound};
ghost use Rattle.cmd_board.specs.declared.halt.BoardHalt.TheVariants.{DiskFault, Refused};
ghost use Rattle.door_upload.specs.declared.answer.UploadError.TheVariants.{Doubt};
ghost use Rattle.entry_runs.specs.Door.{World};
ghost use Rattle.entry_runs.specs.Entry.{IsAt, Works};
ghost use Rattle.entry_runs.specs.Promise.{ended};
ghost use Rattle.intent_journal.specs.Journal.{IsClosed};
ghost use Rattle.cmd_board.specs.mail_board.Readers.{user_id};
ghost use Rattle.shelf_files.specs.declared.refusal.Refusal.TheVariants as refusal;
ghost use Rattle.cmd_exchange.specs.Upload.{uploaded_text, uploads};
ghost use Rattle.cmd_exchange.specs.Uploading.{upload_halt};

use cmd_board::{Board, BoardHalt, Loaded, board_in, find, keep_board, take_board};
use door_outside::{Host, Shelf, ShelfName};
use door_upload::{UploadError, Uploaded};
use shelf_files::{REP_LIMIT, Refusal, file_in};
use std::alloc::Global;

/// Looks for the user of a name, ignoring ASCII case, refused where no user has it.
fn look_for(board: &Board, name: &[u8]) -> Result<(), BoardHalt>
    ensures { MatchResult result (λ _. IsSome (user_id name.now board.now.board)) (λ e. (e ≡ Refused refusal.NoUser) × (user_id name.now board.now.board ≡ None)) }
{
    match board.user_id(name) {
        Some(_) => Ok(()),
        None => Err(BoardHalt::Refused(Refusal::NoUser)),
    }
}

/// What an upload to a board in no doubt answers, or why the command isn't carried out.
fn answered(uploaded: Result<Uploaded, UploadError>) -> Result<Uploaded, BoardHalt>
    requires { uploaded ≢ Err Doubt }
    ensures { result ≡ halted upload_halt uploaded }
{
    match uploaded {
        Ok(answer) => Ok(answer),
        Err(UploadError::NoUser) => Err(BoardHalt::Refused(Refusal::NoUser)),
        Err(UploadError::Broken(fault)) => Err(BoardHalt::Refused(Refusal::Broken(fault))),
        Err(UploadError::NoBoardId) => Err(BoardHalt::Refused(Refusal::NoBoardId)),
        Err(UploadError::OtherBoard) => Err(BoardHalt::Refused(Refusal::OtherBoard)),
        Err(UploadError::Uploads) => Err(BoardHalt::Refused(Refusal::Uploads)),
        Err(UploadError::Size(bytes)) => Err(BoardHalt::Refused(Refusal::Size(bytes))),
        Err(UploadError::DiskFault) => Err(BoardHalt::DiskFault),
        Err(UploadError::Doubt) => unreachable!(),
        Err(UploadError::Damaged(damage)) => Err(BoardHalt::Damaged(damage)),
        Err(UploadError::OutOfMemory) => Err(BoardHalt::OutOfMemory),
    }
}

/// Takes in the reply packet of a file for the user of a name, ignoring ASCII case, at a moment in Unix seconds. Its
/// accepted messages are posted, and its record is kept, once for each user and SHA-256.
///
/// It is refused where there is no board, and else for the first of these that applies:
///
/// - No user has the name.
/// - The file isn't there or has more than 1,048,576 bytes.
/// - The packet is shorter than a block, else has no board id, else has another fault.
/// - It is another board's.
///
/// Then, where the user didn't send the packet before, it is refused where there are 100,000 records, and else where
/// the files would be too long with one more.
pub fn upload<H: Host, S: Shelf>(
    alloc: Global,
    host: &mut H,
    shelf: &mut S,
    kept: &mut Option<Loaded>,
    user: &[u8],
    file: &ShelfName,
    now: u32,
) -> Result<Uploaded, BoardHalt>
    requires sure { AreSure kept.old }
    requires kept { IsTrue H.tells → IsKept kept.old (H.disk host.old) }
    ensures works { IsTrue H.tells → IsTrue S.tells → (world : World State) → IsAt Stores world (H.disk host.old) (S.files shelf.old) → Works Stores (uploads user.now file.now now) world (H.disk host.old) (H.disk host.new) (S.files shelf.new) (told uploaded_text result) }
    ensures kept { IsTrue H.tells → IsKept kept.new (H.disk host.new) }
    ensures sure { AreSure kept.new }
    ensures keeps { IsTrue H.tells → KeepsFiles (H.disk host.old) (H.disk host.new) (went result) }
    ensures wrote { IsTrue H.tells → IsTrue S.tells → IsClosed ((H.disk host.old).files 1) → KeepsWriteBound (uploads user.now file.now now) (H.disk host.old) (H.disk host.new) (S.files shelf.old) }
    ensures wrote_between { IsTrue H.tells → IsClosed ((H.disk host.old).files 1) → ¬ IsErrOf result DiskFault → FilesKeepBound (H.disk host.old) (H.disk host.new) }
    ensures causes { HaveCauses H.disk_faults H.voice_faults S.faults host.old host.new shelf.old shelf.new (ended (told uploaded_text result)) }
{
    find(alloc, host, kept)?;
    look_for(board_in(kept)?, user)?;
    let bytes = file_in(alloc, shelf, file, REP_LIMIT)?;
    let mut board = take_board(kept)?;
    let uploaded = door_upload::upload(alloc, &mut board, host, user, bytes.as_slice(), now);
    keep_board(kept, board);
    answered(uploaded)
}
