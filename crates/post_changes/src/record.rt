// Upload records, and a ledger with one more.
ghost use Rattle.std.specs.Prelude.{◌≡◌, ◌<◌, ◌^◌, length, IfOk};
ghost use Rattle.board_ledger.specs.Uploads.{is_repeated as repeated};
ghost use Rattle.post_changes.specs.Posted.{upload_record as record_of_posts, with_record as with_record_of};
ghost use Rattle.post_changes.specs.Recorded.{is_new_upload as new_in, may_record as may_record_of};

use crate::post::Post;
use board_ledger::{Counts, Ledger, UPLOAD_LIMIT, UploadRecord, Uploads, VERDICT_LIMIT};
use std::alloc::{AllocError, Global};

/// The record of a packet of a user and a SHA-256, of which these posts were posted, and so many messages were
/// refused.
pub(crate) fn record_of(user: u32, digest: &[u8; 32], refused: u32, posts: &[Post]) -> UploadRecord
    requires { length posts.now < 2 ^ 32 }
    ensures { result ≡ record_of_posts user digest.now refused posts.now }
{
    UploadRecord {
        user,
        digest: *digest,
        counts: Counts {
            posted: posts.len() as u32,
            refused,
        },
    }
}

/// The ledger with other upload records.
fn with_uploads(alloc: Global, ledger: &Ledger, uploads: Uploads) -> Result<Ledger, AllocError>
    ensures { IfOk result (λ next. next ≡ record ledger.now { uploads = uploads }) }
{
    Ok(Ledger {
        version: ledger.version,
        setup: ledger.setup.copy(alloc)?,
        created: ledger.created,
        users: ledger.users.copy(alloc)?,
        uploads,
    })
}

/// The ledger with an upload record behind the others.
pub(crate) fn with_record(
    alloc: Global,
    ledger: &Ledger,
    upload: UploadRecord,
) -> Result<Ledger, AllocError>
    ensures { IfOk result (λ next. next ≡ with_record_of upload ledger.now) }
{
    let mut uploads = ledger.uploads.copy(alloc)?;
    uploads.add(upload)?;
    with_uploads(alloc, ledger, uploads)
}

/// Whether one of the records has the same user and SHA-256.
fn is_repeated(uploads: &[UploadRecord], upload: &UploadRecord) -> bool
    ensures { result ≡ repeated uploads.now upload.now }
{
    uploads.iter().any(|record| record.user == upload.user && record.digest == upload.digest)
}

/// Whether there are fewer than 100,000 records, and none has the same user and SHA-256.
fn is_new(ledger: &Ledger, upload: &UploadRecord) -> bool
    ensures { result ≡ new_in ledger.now upload.now }
{
    let uploads = ledger.uploads.as_slice();
    uploads.len() < UPLOAD_LIMIT && !is_repeated(uploads, upload)
}

/// Whether a ledger may have a record more: it is new, its user is there, and it counts at most 8,191 messages.
pub(crate) fn may_record(ledger: &Ledger, upload: &UploadRecord) -> bool
    ensures { result ≡ may_record_of ledger.now upload.now }
{
    let no_user = upload.user == 0 || upload.user as usize > ledger.users.len();
    let count = u64::from(upload.counts.posted) + u64::from(upload.counts.refused);
    !no_user && count <= VERDICT_LIMIT as u64 && is_new(ledger, upload)
}
