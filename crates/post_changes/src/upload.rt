ghost use Rattle.std.specs.Prelude.{◌≡◌, length, IfOk};
ghost use Rattle.slot_changes.specs.board_changes.Change.{Becomes};
ghost use Rattle.slot_changes.specs.board_changes.Outlined.{LeadsEach};
ghost use Rattle.slot_changes.specs.board_changes.Spending.{Spends};
ghost use Rattle.board_layout.specs.Outlines.{board_outline};
ghost use Rattle.board_layout.specs.Valid.{IsBoard};
ghost use Rattle.board_ledger.specs.UploadPuts.{upload_puts};
ghost use Rattle.board_ledger.specs.Valid.{IsLedger};
ghost use Rattle.post_changes.specs.Posted.{ArePlaced, uploaded as uploaded_of, with_record as with_record_of};

use crate::post::{Posts, posted};
use crate::record::{record_of, with_record};
use board_layout::StoredBoard;
use board_ledger::{Ledger, UploadRecord, upload_patches};
use intent_journal::Intent;
use slot_changes::{BoardChange, intent_with};
use std::alloc::{AllocError, Global};

/// The intent that puts an upload record at the end of the ledger's file, and counts it. The ledger is valid without
/// the record and with it.
fn upload_intent(
    alloc: Global,
    ledger: &Ledger,
    upload: &UploadRecord,
) -> Result<Intent, AllocError>
    requires ledger { IsLedger ledger.now }
    requires longer { IsLedger (with_record_of upload.now ledger.now) }
    ensures { IfOk result (λ intent. intent ≡ upload_puts ledger.now upload.now) }
{
    intent_with(alloc, upload_patches(alloc, ledger, upload)?)
}

/// The change of a board by a reply packet that the user of an id, from 1, sent. The messages of its posts go to the
/// ends of their conferences, as `spread` has it. The record of the packet stands behind the others. It has the
/// packet's SHA-256, how many posts there are and how many messages were refused. All places are there, and the board
/// that the change makes is valid. The intent serves each board with the outline of this one. A message is copied once.
///
/// The error comes where there is no memory.
pub fn uploaded(
    alloc: Global,
    board: &StoredBoard,
    user: u32,
    digest: &[u8; 32],
    refused: u32,
    posts: &Posts,
) -> Result<BoardChange, AllocError>
    requires places { ArePlaced posts.now board.now }
    requires next { IsBoard (uploaded_of user digest.now refused posts.now board.now) }
    ensures becomes { IfOk result (Becomes board.now (board_outline (uploaded_of user digest.now refused posts.now board.now))) }
    ensures each { IfOk result (λ change. LeadsEach board.now (uploaded_of user digest.now refused posts.now) change.intent) }
    ensures costs { IfOk result (λ change. Spends (length posts.now) board.now (uploaded_of user digest.now refused posts.now board.now) change.intent) }
{
    let posts = posts.as_slice();
    let old = board.ledger();
    let upload = record_of(user, digest, refused, posts);
    let intent = upload_intent(alloc, old, &upload)?;
    let ledger = with_record(alloc, old, upload)?;
    posted(alloc, board, Some(ledger), intent, posts)
}
