//! An acknowledgement: what was offered to a user is read up to it.
ghost use Rattle.std.specs.Prelude.{◌≡◌, ◌↔◌, true, Ok, Err, IfOk, IfErr, IsErrOf, IsOk, IsTrue, IsFalse, OnOk};
ghost use Rattle.std.specs.Result.{result_err};
ghost use Rattle.board_layout.specs.Board as Boards;
ghost use Rattle.board_layout.specs.Layout.{IsLayout};
ghost use Rattle.door_outside.specs.Disk.{AllNow, Between};
ghost use Rattle.intent_journal.specs.Hosts.{IsSettled};
ghost use Rattle.mail_board.specs.Causes.{HasFault};
ghost use Rattle.mail_board.specs.Changes.{changed, Fits};
ghost use Rattle.mail_board.specs.Held.{AreAlike, BeforeOrNext, Follows, Holds, Rests, RestsOn};
ghost use Rattle.door_export.specs.Ack.{ack_of, after_ack};
ghost use Rattle.door_export.specs.Acknowledging.{IsEarlyAck, AckLeavesAll, refusal_in};

use crate::reader::reader_of;
use door_outside::Host;
use mail_board::{Board, Change, ChangeError};
use std::alloc::Global;
use std::fmt;
use thiserror::Error;

/// Why no packet was acknowledged, or perhaps not.
#[derive(Clone, Copy, Debug, PartialEq, Eq, Error)]
pub enum AckError {
    /// No user has the name.
    #[error("no such user")]
    NoUser,
    /// No open packet of the user has the number. It carries the greatest number of one that is open, or None.
    #[error("no open packet has this number; {open}", open = shown_open(.0))]
    NoPacket(Option<u32>),
    /// A file call of the host failed. The files hold the board before the acknowledgement or the one after it.
    #[error("disk fault")]
    DiskFault,
    /// An earlier change ended with a disk fault, so nothing was done.
    #[error("the board is in doubt")]
    Doubt,
    /// There is no memory for the change. Nothing was done.
    #[error("out of memory")]
    OutOfMemory,
}

/// Which packets are open, as a message says it: the greatest number of one, where there is one.
#[derive(Clone, Copy)]
struct Greatest(Option<u32>);

/// The greatest number of an open packet, to be shown.
fn shown_open(open: &Option<u32>) -> Greatest {
    Greatest(*open)
}

impl fmt::Display for Greatest {
    fn fmt<W: fmt::Write>(&self, f: &mut fmt::Formatter<W>) -> fmt::Result {
        match self.0 {
            None => write!(f, "none is open"),
            Some(packet) => write!(f, "the greatest that is open is {packet}"),
        }
    }
}

impl From<ChangeError> for AckError {
    ghost use Rattle.std.specs.Prelude.{◌≡◌};
    ghost use Rattle.door_export.specs.Acknowledging.{ack_change_error};

    ghost from_gives = { λ error e. e ≡ ack_change_error error };

    fn from(error: ChangeError) -> AckError {
        match error {
            ChangeError::DiskFault => AckError::DiskFault,
            ChangeError::Doubt => AckError::Doubt,
            ChangeError::OutOfMemory => AckError::OutOfMemory,
        }
    }
}

/// The change by which the user of a name acknowledges a packet, or why he can't.
fn prepared(board: &Board, name: &[u8], packet: u32, now: u32) -> Result<Change, AckError>
    ensures refused { refusal_in result ≡ result_err (ack_of name.now packet now board.now.board) }
    ensures early { IfErr result IsEarlyAck }
    ensures doubt { (result ≡ Err AckError.Doubt) ↔ (IsOk (ack_of name.now packet now board.now.board) × IsTrue board.now.doubtful) }
    ensures sure { OnOk result (IsFalse board.now.doubtful) }
    ensures fits { IfOk result (λ change. Fits change board.now.board) }
    ensures board { IfOk result (λ change. (b : Boards.Board) → AreAlike b board.now.board → Ok (changed change b) ≡ ack_of name.now packet now b) }
{
    let Some(reader) = reader_of(board, name) else {
        return Err(AckError::NoUser);
    };
    if !board.has_offer(reader.id, packet) {
        return Err(AckError::NoPacket(board.offer(reader.id)));
    }
    if board.doubtful() {
        return Err(AckError::Doubt);
    }
    Ok(Change::Acknowledge {
        user: reader.id,
        packet,
        now,
    })
}

/// Acknowledges an open packet for the user of a name, ignoring ASCII case. It changes each conference with a high
/// above his last-read pointer. There the messages to him up to that high are marked read at a moment in Unix seconds,
/// and then the pointer is the high. That offer goes, and the others stay. Where the board isn't doubtful, the host
/// rests, and its files are those of a board with this outline. It says nothing.
///
/// The first of these that applies comes:
///
/// - `NoUser` where no user has the name.
/// - `NoPacket` where no open packet of his has the number, with the greatest number of one that is open.
/// - `Doubt` where the board is doubtful.
///
/// `OutOfMemory` comes before the first write. All of these leave all as it was. `DiskFault` comes only where the
/// host's count of disk faults rose, and then the board is doubtful.
pub fn acknowledge<H: Host>(
    alloc: Global,
    board: &mut Board,
    host: &mut H,
    user: &[u8],
    packet: u32,
    now: u32,
) -> Result<(), AckError>
    requires rests { IsTrue H.tells → IsFalse board.old.doubtful → RestsOn board.old.board (H.disk host.old) }

    // Whichever board the host holds, a crash at any moment leaves that board or the one after the acknowledgement.
    ensures moments { IsTrue H.tells → IsFalse board.old.doubtful → (b : Boards.Board) → Holds b (H.disk host.old) → Between (H.disk host.old) (H.disk host.new) (BeforeOrNext (IsLayout b) (after_ack b (ack_of user.now packet now b)) (H.disk host.old)) }
    ensures now { IsTrue H.tells → IsFalse board.old.doubtful → (b : Boards.Board) → Holds b (H.disk host.old) → AllNow (H.disk host.new) (BeforeOrNext (IsLayout b) (after_ack b (ack_of user.now packet now b)) (H.disk host.old)) }
    ensures settled { IsTrue H.tells → IsFalse board.old.doubtful → IsSettled (H.disk host.new) }

    ensures refused { refusal_in result ≡ result_err (ack_of user.now packet now board.old.board) }
    ensures doubt { (result ≡ Err AckError.Doubt) ↔ (IsOk (ack_of user.now packet now board.old.board) × IsTrue board.old.doubtful) }
    ensures unchanged { AckLeavesAll result → (board.new ≡ board.old) × (host.new ≡ host.old) }
    ensures board { OnOk result (Follows (after_ack board.old.board (ack_of user.now packet now board.old.board)) board.new) }
    ensures next { OnOk result (IsTrue H.tells → (b : Boards.Board) → Holds b (H.disk host.old) → Rests (after_ack b (ack_of user.now packet now b)) (H.disk host.new)) }
    ensures rests { OnOk result (IsTrue H.tells → RestsOn board.new.board (H.disk host.new)) }
    ensures fault { IsErrOf result AckError.DiskFault → board.new ≡ record { board = board.old.board; doubtful = true } }
    ensures disk_cause { HasFault AckError.DiskFault (H.disk_faults host.old) (H.disk_faults host.new) result }
    ensures voice { H.voice_faults host.new ≡ H.voice_faults host.old }
{
    let acknowledged = prepared(board, user, packet, now)?;
    board.change(alloc, host, &acknowledged)?;
    Ok(())
}
