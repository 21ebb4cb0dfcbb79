//! What the bytes of a packet come to, before the board is changed.
ghost use Rattle.std.specs.Prelude.{◌≡◌, ◌≤◌, Err, None, length, All, IfOk, IsFalse, IsSome, option_map};
ghost use Rattle.board_layout.specs.Lookups.{user_of};
ghost use Rattle.board_ledger.specs.Limits.{verdict_limit};
ghost use Rattle.mail_board.specs.Readers.{upload_of, user_id};
ghost use Rattle.qwk_blocks.specs.Written.{Writable};
ghost use Rattle.rep_packet.specs.Written.{IsRep};
ghost use Rattle.door_upload.specs.Upload.{judged_upload, record_refusal, upload_read};
ghost use Rattle.door_upload.specs.Uploading.{upload_error, FindsFor, FindsIn, IsUploadFound, IsJudged, OfEach};

use crate::answer::UploadError;
use board_layout::BOARD_LIMIT;
use board_ledger::{Counts, UPLOAD_LIMIT, UPLOAD_SIZE};
use mail_board::{Board, Change};
use packet_verdicts::{Judged, Outcomes, judge_all};
use qwk_blocks::QwkMessages;
use rep_packet::{Rep, read_rep};
use sha2::{Digest, Sha256};
use std::alloc::{AllocError, Global};

/// What a packet comes to that isn't refused.
#[derive(Debug, Drop)]
pub(crate) enum Uploading {
    /// The user sent it before.
    Again(Counts),
    /// The change that takes it in, and what becomes of each message.
    Judged { change: Change, outcomes: Outcomes },
}

/// Why no record more is kept: there are as many as there may be, or the data files would be too long with it.
fn refusal_of(board: &Board) -> Option<UploadError>
    ensures { result ≡ option_map upload_error (record_refusal board.now.board) }
{
    if board.upload_count() as usize >= UPLOAD_LIMIT {
        return Some(UploadError::Uploads);
    }
    let size = board.stored().size() + UPLOAD_SIZE as u64;
    if size > BOARD_LIMIT {
        return Some(UploadError::Size(size));
    }
    None
}

/// The change by which a board in no doubt takes in the messages of a new packet of a user who is there, and what
/// becomes of each.
fn judged(
    alloc: Global,
    board: &Board,
    user: u32,
    digest: &[u8; 32],
    messages: &QwkMessages,
    now: u32,
) -> Result<Uploading, AllocError>
    requires sure { IsFalse board.now.doubtful }
    requires user { IsSome (user_of user board.now.board) }
    requires new { upload_of user digest.now board.now.board ≡ None }
    requires record { record_refusal board.now.board ≡ None }
    requires few { length messages.now ≤ verdict_limit }
    requires writable { All Writable messages.now }
    ensures found { IfOk result (λ found. IsUploadFound board.now found (judged_upload user digest.now now board.now.board messages.now)) }
    ensures judged { IfOk result (IsJudged user digest.now now board.now.board messages.now) }
{
    let Judged {
        outcomes,
        posts,
        refused,
    } = judge_all(alloc, board.stored(), user, messages, now)?;
    Ok(Uploading::Judged {
        change: Change::Upload {
            user,
            digest: *digest,
            refused,
            posts,
        },
        outcomes,
    })
}

/// What a packet with a digest comes to that a user who is there uploads at a moment.
fn prepared_for(
    alloc: Global,
    board: &Board,
    user: u32,
    digest: &[u8; 32],
    packet: &Rep,
    now: u32,
) -> Result<Uploading, UploadError>
    requires user { IsSome (user_of user board.now.board) }
    requires few { length packet.now.messages ≤ verdict_limit }
    requires packet { IsRep packet.now }
    ensures finds { FindsFor board.now (upload_read user digest.now now board.now.board packet.now) result }
    ensures judged { IfOk result (IsJudged user digest.now now board.now.board packet.now.messages) }
{
    let bbsid = board.setup().bbsid().as_slice();
    if !packet.bbsid.as_slice().eq_ignore_ascii_case(bbsid) {
        return Err(UploadError::OtherBoard);
    }
    if let Some(counts) = board.upload_of(user, digest) {
        return Ok(Uploading::Again(counts));
    }
    if let Some(refusal) = refusal_of(board) {
        return Err(refusal);
    }
    if board.doubtful() {
        return Err(UploadError::Doubt);
    }
    Ok(judged(alloc, board, user, digest, &packet.messages, now)?)
}

/// What the bytes come to that the user of a name uploads at a moment, on whichever board with this outline. All memory
/// of an upload but that of the change is taken here.
pub(crate) fn prepared(
    alloc: Global,
    board: &Board,
    name: &[u8],
    bytes: &[u8],
    now: u32,
) -> Result<Uploading, UploadError>
    requires { length bytes.now ≤ 1048576 }
    ensures finds { FindsIn name.now bytes.now now board.now result }
    ensures each { OfEach board.now (λ h. FindsIn name.now bytes.now now h result) }
    ensures no_user { user_id name.now board.now.board ≡ None → result ≡ Err UploadError.NoUser }
{
    let Some(user) = board.user_id(name) else {
        return Err(UploadError::NoUser);
    };
    let packet = read_rep(alloc, bytes)?;
    let digest = Sha256::digest(bytes);
    prepared_for(alloc, board, user, &digest, &packet, now)
}
