//! An export: a packet is made of what a user is offered, offered to him, and written.
ghost use Rattle.std.specs.Prelude.{◌≡◌, ◌⊎◌, true, ◌↔◌, Ok, Err, Some, None, IfOk, IfErr, IsErrOf, IsOk, IsTrue, IsFalse, OnOk, option_map};
ghost use Rattle.std.specs.Result.{result_err, result_ok};
ghost use Rattle.board_layout.specs.Board as Boards;
ghost use Rattle.board_layout.specs.Layout.{IsLayout};
ghost use Rattle.board_layout.specs.Lookups.{user_of};
ghost use Rattle.board_layout.specs.Rules.{HasReadCause};
ghost use Rattle.door_outside.specs.Disk.{AllNow, Between, Unchanged};
ghost use Rattle.door_outside.specs.Name.{HasParts};
ghost use Rattle.door_outside.specs.Shelf.{SameBut};
ghost use Rattle.intent_journal.specs.Hosts.{IsSettled};
ghost use Rattle.jam_records.specs.declared.damage.Damage.{Damage};
ghost use Rattle.mail_board.specs.Causes.{HasFault};
ghost use Rattle.mail_board.specs.Changes.{changed, Fits};
ghost use Rattle.mail_board.specs.Held.{AreLeft, BeforeOrNext, Follows, Holds, Rests, RestsOn};
ghost use Rattle.offered_packets.specs.Offered.{offered as offered_of};
ghost use Rattle.offered_packets.specs.Shown.{shown_all};
ghost use Rattle.door_export.specs.Export.{after_export, export_of, user_refusal};
ghost use Rattle.door_export.specs.Exporting.{export_error, AsksNothing, HasMessages, IsBefore, IsPreparedFor, KeepsOffer, ExportLeavesAll, packet_of as packet_made, refusal_in};
ghost use Rattle.door_export.specs.Folder.{folder_names, with_packet};
ghost use Rattle.door_export.specs.declared.exporting.ExportError.TheVariants.{OutOfMemory};

use crate::fetching::packet_of;
use crate::folder::{names_in, write_packet};
use crate::offering::offered;
use crate::reader::reader_of;
use board_ledger::User;
use byte_lists::Bytes;
use door_outside::{Host, Shelf, ShelfName};
use jam_records::Damage;
use mail_board::{Board, Change, ChangeError, ReadError};
use offered_packets::{control_text, highs_of, packet_text};
use std::alloc::{AllocError, Global};
use thiserror::Error;

/// The most messages of a packet.
const MESSAGE_LIMIT: u32 = 2000;

/// A packet that was handed out.
#[derive(Clone, Copy, Debug, PartialEq, Eq)]
pub struct Exported {
    /// Its number, of the user's packets, from 1.
    pub packet: u32,
    /// How many messages it has, at most 2,000.
    pub count: u32,
}

/// Why no packet was handed out, or not whole.
#[derive(Clone, Copy, Debug, PartialEq, Eq, Error)]
pub enum ExportError {
    /// No user has the name.
    #[error("no such user")]
    NoUser,
    /// The limit isn't 1 to 2,000.
    #[error("the limit isn't 1 to 2000")]
    Limit,
    /// The user's last packet has the number 4,294,967,295.
    #[error("no packet number is left behind 4294967295")]
    Packets,
    /// A file call of the host failed. The files hold the board before the offer or the one after it.
    #[error("disk fault")]
    DiskFault,
    /// An earlier change ended with a disk fault, so nothing was done.
    #[error("the board is in doubt")]
    Doubt,
    /// What the host gave as a message's text can't be one of the board's. This is the rule that it breaks. Nothing was
    /// done. It never comes from a host that tells its files.
    #[error("damaged: {0}")]
    Damaged(Damage),
    /// A call of the shelf failed. The offer is kept, and the next export offers the same messages.
    #[error("shelf fault")]
    ShelfFault,
    /// There is no memory for the packet. Nothing was done.
    #[error("out of memory")]
    OutOfMemory,
}

impl From<ChangeError> for ExportError {
    ghost use Rattle.std.specs.Prelude.{◌≡◌};
    ghost use Rattle.door_export.specs.Exporting.{export_change_error};

    ghost from_gives = { λ error e. e ≡ export_change_error error };

    fn from(error: ChangeError) -> ExportError {
        match error {
            ChangeError::DiskFault => ExportError::DiskFault,
            ChangeError::Doubt => ExportError::Doubt,
            ChangeError::OutOfMemory => ExportError::OutOfMemory,
        }
    }
}

impl From<ReadError> for ExportError {
    ghost use Rattle.std.specs.Prelude.{◌≡◌};
    ghost use Rattle.door_export.specs.Exporting.{export_read_error};

    ghost from_gives = { λ error e. e ≡ export_read_error error };

    fn from(error: ReadError) -> ExportError {
        match error {
            ReadError::Damaged(damage) => ExportError::Damaged(damage),
            ReadError::DiskFault => ExportError::DiskFault,
            ReadError::OutOfMemory => ExportError::OutOfMemory,
        }
    }
}

impl From<AllocError> for ExportError {
    ghost from_gives = { λ _ e. e ≡ OutOfMemory };

    fn from(_error: AllocError) -> ExportError {
        ExportError::OutOfMemory
    }
}

/// A packet that may be handed out: by which change of the board, and as which files.
#[derive(Debug, Drop)]
struct Exporting {
    change: Change,
    controls: Bytes,
    messages: Bytes,
    exported: Exported,
}

/// Why no packet is handed out to a user: the limit isn't 1 to 2,000, or his last packet's number is the last that
/// there is.
fn refusal_of(limit: u32, user: &User) -> Option<ExportError>
    ensures { result ≡ option_map export_error (user_refusal limit user.now) }
{
    if limit == 0 || limit > MESSAGE_LIMIT {
        return Some(ExportError::Limit);
    }
    if user.last == u32::MAX {
        return Some(ExportError::Packets);
    }
    None
}

/// The packet of what is offered to a user, made at a moment. The board isn't doubtful, and the host's files are those
/// of a board with this outline. Its messages are fetched from the host, of which nothing changes. All memory of an
/// export but that of the names is taken here.
fn packet_for<H: Host>(
    alloc: Global,
    board: &Board,
    host: &mut H,
    id: u32,
    user: &User,
    limit: u32,
    now: u32,
) -> Result<Exporting, ReadError>
    requires user { user_of id board.now.board ≡ Some user.now }
    requires may { user_refusal limit user.now ≡ None }
    requires sure { IsFalse board.now.doubtful }
    requires rests { IsTrue H.tells → RestsOn board.now.board (H.disk host.old) }
    ensures fits { IfOk result (λ e. Fits e.change board.now.board) }
    ensures prepared { IfOk result (IsPreparedFor limit now board.now.board id user.now) }
    ensures messages { IsTrue H.tells → (b : Boards.Board) → Holds b (H.disk host.old) → IfOk result (HasMessages (shown_all b (offered_of board.now.board id limit)) user.now) }
    ensures unchanged { IsTrue H.tells → Unchanged (H.disk host.old) (H.disk host.new) }
    ensures undamaged { IsTrue H.tells → (damage : Damage) → ¬ (result ≡ Err (ReadError.Damaged damage)) }
    ensures cause { HasReadCause (H.disk_faults host.old) (H.disk_faults host.new) result }
    ensures voice { H.voice_faults host.new ≡ H.voice_faults host.old }
{
    let messages = offered(alloc, board, id, limit)?;
    let stored = board.stored();
    let packet = user.last + 1;
    let count = messages.len() as u32;
    let shown = packet_of(alloc, board, host, &messages)?;
    Ok(Exporting {
        change: Change::Offer {
            user: id,
            highs: highs_of(alloc, stored, &messages)?,
        },
        controls: control_text(alloc, stored, id, count, now)?,
        messages: packet_text(alloc, packet, &shown)?,
        exported: Exported { packet, count },
    })
}

/// What is handed out to the user of a name, or why nothing is. Nothing of the host changes.
fn prepared<H: Host>(
    alloc: Global,
    board: &Board,
    host: &mut H,
    name: &[u8],
    limit: u32,
    now: u32,
) -> Result<Exporting, ExportError>
    requires rests { IsTrue H.tells → IsFalse board.now.doubtful → RestsOn board.now.board (H.disk host.old) }
    ensures refused { refusal_in result ≡ result_err (export_of name.now limit now board.now.board) }
    ensures early { IfErr result IsBefore }
    ensures doubt { (result ≡ Err ExportError.Doubt) ↔ (IsOk (export_of name.now limit now board.now.board) × IsTrue board.now.doubtful) }
    ensures sure { OnOk result (IsFalse board.now.doubtful) }
    ensures fits { IfOk result (λ e. Fits e.change board.now.board) }
    ensures answer { IfOk result (λ e. option_map (λ p. p.answer) (result_ok (export_of name.now limit now board.now.board)) ≡ Some e.exported) }
    ensures board { IfOk result (λ e. after_export board.now.board (export_of name.now limit now board.now.board) ≡ changed e.change board.now.board) }
    ensures packet { IsTrue H.tells → (b : Boards.Board) → Holds b (H.disk host.old) → IfOk result (λ e. Ok (packet_made e b) ≡ export_of name.now limit now b) }
    ensures asked { AsksNothing result → host.new ≡ host.old }
    ensures unchanged { IsTrue H.tells → Unchanged (H.disk host.old) (H.disk host.new) }
    ensures undamaged { IsTrue H.tells → (damage : Damage) → ¬ (result ≡ Err (ExportError.Damaged damage)) }
    ensures cause { HasFault ExportError.DiskFault (H.disk_faults host.old) (H.disk_faults host.new) result }
    ensures voice { H.voice_faults host.new ≡ H.voice_faults host.old }
{
    let Some(reader) = reader_of(board, name) else {
        return Err(ExportError::NoUser);
    };
    if let Some(refusal) = refusal_of(limit, reader.user) {
        return Err(refusal);
    }
    if board.doubtful() {
        return Err(ExportError::Doubt);
    }
    Ok(packet_for(alloc, board, host, reader.id, reader.user, limit, now)?)
}

/// Hands out to the user of a name, ignoring ASCII case, the messages that are offered to him, at most as many as the
/// limit. It fetches them from the host, keeps the offer, and then writes CONTROL.DAT and MESSAGES.DAT of the folder.
/// No last-read pointer moves. `now` is in Unix seconds. Where the board isn't doubtful, the host rests, and its files
/// are those of a board with this outline. So it is afterwards too, unless the board is doubtful then. It says nothing.
///
/// The first of these that applies comes, before any call of the host or the shelf:
///
/// - `NoUser` where no user has the name.
/// - `Limit` where the limit isn't 1 to 2,000.
/// - `Packets` where his last packet has the number 4,294,967,295.
/// - `Doubt` where the board is doubtful.
///
/// `Damaged` comes where a fetched message can't be in the board's files, and never from a host that tells its files.
/// It and `OutOfMemory` come before the first write. All of these leave the board, the files and the shelf as they
/// were.
///
/// `DiskFault` comes only where the host's count of disk faults rose. Where that was before the first write, all is as
/// it was too, and the board isn't doubtful. Else the board is doubtful.
///
/// `ShelfFault` comes only where the shelf's count of faults rose. The offer is kept then, and the two files may hold
/// anything.
pub fn export<H: Host, S: Shelf>(
    alloc: Global,
    board: &mut Board,
    host: &mut H,
    shelf: &mut S,
    user: &[u8],
    limit: u32,
    folder: &ShelfName,
    now: u32,
) -> Result<Exported, ExportError>
    requires folder { HasParts 3 folder.now }
    requires rests { IsTrue H.tells → IsFalse board.old.doubtful → RestsOn board.old.board (H.disk host.old) }

    // Whichever board the host holds, a crash at any moment leaves that board or the one after the offer.
    ensures moments { IsTrue H.tells → IsFalse board.old.doubtful → (b : Boards.Board) → Holds b (H.disk host.old) → Between (H.disk host.old) (H.disk host.new) (BeforeOrNext (IsLayout b) (after_export b (export_of user.now limit now b)) (H.disk host.old)) }
    ensures now { IsTrue H.tells → IsFalse board.old.doubtful → (b : Boards.Board) → Holds b (H.disk host.old) → AllNow (H.disk host.new) (BeforeOrNext (IsLayout b) (after_export b (export_of user.now limit now b)) (H.disk host.old)) }
    ensures settled { IsTrue H.tells → IsFalse board.old.doubtful → IsSettled (H.disk host.new) }

    // What is refused, and what leaves all as it was.
    ensures refused { refusal_in result ≡ result_err (export_of user.now limit now board.old.board) }
    ensures doubt { (result ≡ Err ExportError.Doubt) ↔ (IsOk (export_of user.now limit now board.old.board) × IsTrue board.old.doubtful) }
    ensures undamaged { IsTrue H.tells → (damage : Damage) → ¬ (result ≡ Err (ExportError.Damaged damage)) }
    ensures asked { AsksNothing result → host.new ≡ host.old }
    ensures unchanged { ExportLeavesAll result → AreLeft H.tells board.old board.new (H.disk host.old) (H.disk host.new) × (shelf.new ≡ shelf.old) }
    ensures fault { IsErrOf result ExportError.DiskFault → (AreLeft H.tells board.old board.new (H.disk host.old) (H.disk host.new) ⊎ (board.new ≡ record { board = board.old.board; doubtful = true })) × (shelf.new ≡ shelf.old) }

    // The packet, and its files, which show the board that the host holds.
    ensures answer { IfOk result (λ exported. option_map (λ p. p.answer) (result_ok (export_of user.now limit now board.old.board)) ≡ Some exported) }
    ensures files { IsTrue S.tells → IsTrue H.tells → (b : Boards.Board) → Holds b (H.disk host.old) → OnOk result (Some (S.files shelf.new) ≡ option_map (λ p. with_packet folder.now p.controls p.messages (S.files shelf.old)) (result_ok (export_of user.now limit now b))) }
    ensures others { IsTrue S.tells → IsErrOf result ExportError.ShelfFault → SameBut (folder_names folder.now) (S.files shelf.old) (S.files shelf.new) }

    // The offer, which a shelf fault leaves kept; and the host is the board's, unless that is doubtful.
    ensures board { KeepsOffer result → Follows (after_export board.old.board (export_of user.now limit now board.old.board)) board.new }
    ensures next { KeepsOffer result → IsTrue H.tells → (b : Boards.Board) → Holds b (H.disk host.old) → Rests (after_export b (export_of user.now limit now b)) (H.disk host.new) }
    ensures rests { IsTrue H.tells → IsFalse board.old.doubtful → IsFalse board.new.doubtful → RestsOn board.new.board (H.disk host.new) }

    ensures disk_cause { HasFault ExportError.DiskFault (H.disk_faults host.old) (H.disk_faults host.new) result }
    ensures shelf_cause { HasFault ExportError.ShelfFault (S.faults shelf.old) (S.faults shelf.new) result }
    ensures voice { H.voice_faults host.new ≡ H.voice_faults host.old }
{
    let exporting = prepared(alloc, board, host, user, limit, now)?;
    let names = names_in(alloc, folder)?;
    board.change(alloc, host, &exporting.change)?;
    match write_packet(
        shelf,
        &names,
        exporting.controls.as_slice(),
        exporting.messages.as_slice(),
    ) {
        Ok(()) => Ok(exporting.exported),
        Err(_) => Err(ExportError::ShelfFault),
    }
}
