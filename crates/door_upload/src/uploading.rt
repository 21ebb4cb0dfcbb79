//! An upload: the messages of a reply packet are judged, and posted with its record, once per user and digest.
ghost use Rattle.std.specs.Prelude.{◌≡◌, ◌≤◌, ◌⊎◌, true, Err, None, length, IsErrOf, IsTrue, IsFalse, OnOk};
ghost use Rattle.board_layout.specs.Board as Boards;
ghost use Rattle.board_layout.specs.Layout.{IsLayout};
ghost use Rattle.board_layout.specs.Valid.{IsBoard};
ghost use Rattle.door_outside.specs.Disk.{AllNow, Between};
ghost use Rattle.intent_journal.specs.Hosts.{IsSettled};
ghost use Rattle.jam_records.specs.declared.damage.Damage.{Damage};
ghost use Rattle.mail_board.specs.Causes.{HasFault};
ghost use Rattle.mail_board.specs.Held.{BeforeOrNext, Follows, Holds, Rests, RestsOn};
ghost use Rattle.mail_board.specs.Readers.{user_id};
ghost use Rattle.mail_board.specs.Written.{KeepsBoundOf};
ghost use Rattle.door_upload.specs.Upload.{UploadGives, after_upload};
ghost use Rattle.door_upload.specs.Uploading.{UploadAnswers, IsNew, UploadLeavesAll, OfEach};

use crate::answer::{UploadError, Uploaded};
use crate::preparing::{Uploading, prepared};
use door_outside::Host;
use mail_board::Board;
use std::alloc::Global;

/// Takes in a reply packet of at most 1,048,576 bytes for the user of a name, ignoring ASCII case, at a moment in Unix
/// seconds. Its messages are judged in order, each on the board with the ones accepted before it. The accepted ones and
/// a record of the packet are one change. Where the user has a record of the packet's SHA-256, the counts of that are
/// answered, and nothing changes. Where the board isn't doubtful, the host rests, and its files are those of a board
/// with this outline. It says nothing.
///
/// The first of these that applies comes:
///
/// - `NoUser` where no user has the name.
/// - `Broken` at 0 where the packet is shorter than a block.
/// - `NoBoardId` where it names no board.
/// - `Broken` for any other first fault.
/// - `OtherBoard` where it names another.
///
/// Else, where he didn't send the packet before, the first of these comes:
///
/// - `Uploads` where there are 100,000 records.
/// - `Size` where the data files would be too long with the record.
/// - `Doubt` where the board is doubtful.
///
/// `OutOfMemory` comes before the first write. All of these leave all as it was. `DiskFault` comes only where the
/// host's count of disk faults rose, and then the board is doubtful. `Damaged` never comes, since no message's text is
/// fetched.
pub fn upload<H: Host>(
    alloc: Global,
    board: &mut Board,
    host: &mut H,
    user: &[u8],
    bytes: &[u8],
    now: u32,
) -> Result<Uploaded, UploadError>
    requires short { length bytes.now ≤ 1048576 }
    requires rests { IsTrue H.tells → IsFalse board.old.doubtful → RestsOn board.old.board (H.disk host.old) }

    // Whichever board the host holds, a crash at any moment leaves that board or the one after the upload.
    ensures moments { IsTrue H.tells → IsFalse board.old.doubtful → (b : Boards.Board) → Holds b (H.disk host.old) → (r : _) → UploadGives user.now bytes.now now b r → Between (H.disk host.old) (H.disk host.new) (BeforeOrNext (IsLayout b) (after_upload b r) (H.disk host.old)) }
    ensures now { IsTrue H.tells → IsFalse board.old.doubtful → (b : Boards.Board) → Holds b (H.disk host.old) → (r : _) → UploadGives user.now bytes.now now b r → AllNow (H.disk host.new) (BeforeOrNext (IsLayout b) (after_upload b r) (H.disk host.old)) }
    ensures settled { IsTrue H.tells → IsFalse board.old.doubtful → IsSettled (H.disk host.new) }

    // What the bytes come to, and the answer to that.
    ensures gives { IsErrOf result UploadError.OutOfMemory ⊎ ((r : _) × UploadGives user.now bytes.now now board.old.board r) }
    ensures no_user { user_id user.now board.old.board ≡ None → result ≡ Err UploadError.NoUser }
    ensures answer { OfEach board.old (λ h. (r : _) → UploadGives user.now bytes.now now h.board r → UploadAnswers h.doubtful r result) }
    ensures undamaged { (damage : Damage) → ¬ (result ≡ Err (UploadError.Damaged damage)) }
    ensures unchanged { UploadLeavesAll result → (board.new ≡ board.old) × (host.new ≡ host.old) }
    ensures board { OnOk result (IsFalse board.old.doubtful → IsBoard board.old.board → (r : _) → UploadGives user.now bytes.now now board.old.board r → Follows (after_upload board.old.board r) board.new) }
    ensures next { OnOk result (IsTrue H.tells → IsFalse board.old.doubtful → (b : Boards.Board) → Holds b (H.disk host.old) → (r : _) → UploadGives user.now bytes.now now b r → Rests (after_upload b r) (H.disk host.new)) }
    ensures rests { OnOk result (IsTrue H.tells → IsFalse board.old.doubtful → RestsOn board.new.board (H.disk host.new)) }
    ensures valid { IsFalse board.old.doubtful → OfEach board.old (λ h. (r : _) → UploadGives user.now bytes.now now h.board r → IsNew r → IsErrOf result UploadError.OutOfMemory ⊎ IsBoard (after_upload h.board r)) }
    ensures fault { IsErrOf result UploadError.DiskFault → board.new ≡ record { board = board.old.board; doubtful = true } }

    // Whatever it answers, it writes fewer bytes than twice those by which it enlarges the data files, and 400 for each
    // message that it posts, and 400 more.
    ensures wrote { IsTrue H.tells → (r : _) → UploadGives user.now bytes.now now board.old.board r → KeepsBoundOf board.old.board (after_upload board.old.board r) (H.disk host.old).wrote (H.disk host.new).wrote }

    ensures disk_cause { HasFault UploadError.DiskFault (H.disk_faults host.old) (H.disk_faults host.new) result }
    ensures voice { H.voice_faults host.new ≡ H.voice_faults host.old }
{
    match prepared(alloc, board, user, bytes, now)? {
        Uploading::Again(counts) => Ok(Uploaded::Again(counts)),
        Uploading::Judged { change, outcomes } => {
            board.change(alloc, host, &change)?;
            Ok(Uploaded::Judged(outcomes))
        }
    }
}
