ghost use Rattle.std.specs.Prelude.{◌≡◌, ◌↔◌, true, Err, IfOk, OnOk, IsErrOf, IsTrue, IsFalse};
ghost use Rattle.post_changes.specs.board_changes.Change.{Becomes};
ghost use Rattle.post_changes.specs.board_changes.Outlined.{LeadsEach};
ghost use Rattle.board_layout.specs.Board as Boards;
ghost use Rattle.board_layout.specs.Layout.{IsLayout};
ghost use Rattle.board_layout.specs.Outlines.{board_outline};
ghost use Rattle.board_layout.specs.Valid.{IsBoard};
ghost use Rattle.door_outside.specs.Disk.{AllNow, Between};
ghost use Rattle.intent_journal.specs.Hosts.{IsSettled};
ghost use Rattle.mail_board.specs.Causes.{HasFault};
ghost use Rattle.mail_board.specs.Changes.{changed, Fits};
ghost use Rattle.mail_board.specs.Held.{BeforeOrNext, Follows, Holds, Rests, RestsOn};
ghost use Rattle.mail_board.specs.Written.{PutsFew, WritesFew};
ghost use Rattle.mail_board.specs.declared.change.ChangeError.TheVariants.{DiskFault as DiskFails, OutOfMemory};

use crate::board::Board;
use board_layout::StoredBoard;
use board_ledger::Highs;
use byte_lists::Bytes;
use door_outside::{DiskFault, Host};
use intent_journal::commit;
use jam_records::Messages;
use offer_changes::{acknowledged, offered};
use post_changes::{BoardChange, Posts, appended, deleted, enrolled, spread, uploaded};
use std::alloc::{AllocError, Global};
use thiserror::Error;

/// A change of a board.
#[derive(Debug, Drop)]
pub enum Change {
    /// A user more, behind the others.
    Enroll {
        /// The name, a user name that no user has, ignoring ASCII case.
        name: Bytes,
        /// Whether the user may write net mail.
        net: bool,
        /// The places of the conferences whose member the user is, bit k for place k. At least one is there.
        members: u64,
    },
    /// Messages more, at the end of a conference, one after the other.
    Append {
        /// The place of the conference, from 0.
        place: u8,
        /// The messages. One with an empty msgid gets the one that is generated for its number.
        messages: Messages,
    },
    /// Messages more, at the ends of their conferences.
    Spread {
        /// Each with the place of its conference. One with an empty msgid gets the one that is generated for its number.
        posts: Posts,
    },
    /// A message deleted.
    Kill {
        /// The place of its conference, from 0.
        place: u8,
        /// Its number, which is that of a message that isn't deleted.
        number: u32,
    },
    /// A packet more offered to a user. It is his last one. Where five would be open, the one with the smallest number
    /// goes.
    Offer {
        /// The user's id, from 1. The last packet before is below 4,294,967,295.
        user: u32,
        /// For each conference, by place, the greatest message number that is offered, or 0.
        highs: Highs,
    },
    /// The acknowledgement of a packet that is open for a user.
    Acknowledge {
        /// The user's id, from 1.
        user: u32,
        /// The number of the packet.
        packet: u32,
        /// The moment at which the messages to the user are received, in Unix seconds.
        now: u32,
    },
    /// The messages of a reply packet, at the ends of their conferences, and the record of the packet.
    Upload {
        /// The id of the user who sent it, from 1, who sent none of this SHA-256.
        user: u32,
        /// The SHA-256 of the packet.
        digest: [u8; 32],
        /// How many of its messages are refused.
        refused: u32,
        /// The messages that are posted, as in `Spread`. The record counts them.
        posts: Posts,
    },
}

/// Why a change wasn't made, or may not have been.
#[derive(Clone, Copy, Debug, PartialEq, Eq, Error)]
pub enum ChangeError {
    /// A file call of the host failed. The files hold the board before the change or the one after it.
    #[error("disk fault")]
    DiskFault,
    /// An earlier change ended with a disk fault, so nothing was done.
    #[error("the board is in doubt")]
    Doubt,
    /// There is no memory for the change. Nothing was done.
    #[error("out of memory")]
    OutOfMemory,
}

impl From<DiskFault> for ChangeError {
    ghost from_gives = { λ _ e. e ≡ DiskFails };

    fn from(_fault: DiskFault) -> ChangeError {
        ChangeError::DiskFault
    }
}

impl From<AllocError> for ChangeError {
    ghost from_gives = { λ _ e. e ≡ OutOfMemory };

    fn from(_error: AllocError) -> ChangeError {
        ChangeError::OutOfMemory
    }
}

/// What a change that fits makes of a board, which is valid and its own outline, and so of each board with that outline.
fn next_of(alloc: Global, stored: &StoredBoard, change: &Change) -> Result<BoardChange, AllocError>
    requires { Fits change.now stored.now }
    ensures becomes { IfOk result (λ next. Becomes stored.now (board_outline (changed change.now stored.now)) next) }
    ensures each { IfOk result (λ next. LeadsEach stored.now (changed change.now) next.intent) }
    ensures board { IsBoard stored.now }
    ensures outline { board_outline stored.now ≡ stored.now }
    ensures costs { IfOk result (λ next. PutsFew change.now stored.now next.intent) }
{
    let _ledger = stored.ledger();
    match change {
        Change::Enroll { name, net, members } => {
            enrolled(alloc, stored, name.as_slice(), *net, *members)
        }
        Change::Append { place, messages } => appended(alloc, stored, *place, messages),
        Change::Spread { posts } => spread(alloc, stored, posts),
        Change::Kill { place, number } => deleted(alloc, stored, *place, *number),
        Change::Offer { user, highs } => offered(alloc, stored, *user, highs),
        Change::Acknowledge { user, packet, now } => {
            acknowledged(alloc, stored, *user, *packet, *now)
        }
        Change::Upload {
            user,
            digest,
            refused,
            posts,
        } => uploaded(alloc, stored, *user, digest, *refused, posts),
    }
}

impl Board {
    /// Makes a change that fits, whole or not at all. Where the board isn't doubtful, the host rests, and its files are
    /// those of a board with this outline. It says nothing.
    ///
    /// `Doubt` comes where the board is doubtful, and `OutOfMemory` before the first write: both leave all as it
    /// was. `DiskFault` comes only where the host's count of disk faults rose. After it the board is doubtful.
    pub fn change<H: Host>(
        &mut self,
        alloc: Global,
        host: &mut H,
        change: &Change,
    ) -> Result<(), ChangeError>
        requires fits { Fits change.now self.old.board }
        requires rests { IsTrue H.tells → IsFalse self.old.doubtful → RestsOn self.old.board (H.disk host.old) }

        // Whichever board the host holds, a crash at any moment leaves that board or the one that the change makes of it.
        ensures moments { IsTrue H.tells → IsFalse self.old.doubtful → (b : Boards.Board) → Holds b (H.disk host.old) → Between (H.disk host.old) (H.disk host.new) (BeforeOrNext (IsLayout b) (changed change.now b) (H.disk host.old)) }
        ensures now { IsTrue H.tells → IsFalse self.old.doubtful → (b : Boards.Board) → Holds b (H.disk host.old) → AllNow (H.disk host.new) (BeforeOrNext (IsLayout b) (changed change.now b) (H.disk host.old)) }
        ensures settled { IsTrue H.tells → IsFalse self.old.doubtful → IsSettled (H.disk host.new) }

        ensures board { OnOk result (Follows (changed change.now self.old.board) self.new) }
        ensures next { OnOk result (IsTrue H.tells → (b : Boards.Board) → Holds b (H.disk host.old) → Rests (changed change.now b) (H.disk host.new)) }
        ensures rests { OnOk result (IsTrue H.tells → RestsOn self.new.board (H.disk host.new)) }
        ensures doubt { (result ≡ Err ChangeError.Doubt) ↔ IsTrue self.old.doubtful }
        ensures fault { IsErrOf result ChangeError.DiskFault → self.new ≡ record { board = self.old.board; doubtful = true } }
        ensures unchanged { IsErrOf result ChangeError.Doubt → (self.new ≡ self.old) × (host.new ≡ host.old) }
        ensures starved { IsErrOf result ChangeError.OutOfMemory → (self.new ≡ self.old) × (host.new ≡ host.old) }
        // Whatever it answers, posting messages writes fewer bytes than twice those by which it enlarges the data files,
        // and 400 for each message and once more. Deleting one writes at most 200.
        ensures wrote { IsTrue H.tells → WritesFew change.now self.old.board (H.disk host.old).wrote (H.disk host.new).wrote }

        ensures cause { HasFault ChangeError.DiskFault (H.disk_faults host.old) (H.disk_faults host.new) result }
        ensures voice { H.voice_faults host.new ≡ H.voice_faults host.old }
    {
        if self.doubtful {
            return Err(ChangeError::Doubt);
        }
        let next = next_of(alloc, &self.stored, change)?;
        if let Err(fault) = commit(host, &next.intent) {
            self.doubtful = true;
            return Err(fault.into());
        }
        self.stored.renew(next.ledger, next.bases);
        Ok(())
    }
}
