ghost use Rattle.std.specs.Prelude.{◌≡◌, ◌≤◌, ◌<◌, ◌+◌, ◌^◌, ◌++◌, ◌||◌, ℕ, List, [], length, false, nat_eq, All, IfOk, OnOk};
ghost use Rattle.std.specs.List.{flat_map, list_any, IsDistinct};
ghost use Rattle.std.specs.Str.{bytes_eq};
ghost use Rattle.jam_records.specs.record_numbers.Numbers.{u16_text};
ghost use Rattle.board_ledger.specs.Apart.{digest_numbers};
ghost use Rattle.board_ledger.specs.Limits.{upload_limit};
ghost use Rattle.board_ledger.specs.Rules.{LedgerGives};
ghost use Rattle.board_ledger.specs.Met.{is_met};
ghost use Rattle.board_ledger.specs.Records.{records_at};
ghost use Rattle.board_ledger.specs.Uploads.{upload_text, upload_at, upload_in_record, is_repeated, upload_size};

use crate::apart::{are_apart, numbers_of};
use crate::damaged::damaged;
use crate::error::LedgerError;
use crate::met::Met;
use crate::upload::{UPLOAD_SIZE, UploadRecord, Uploads};
use jam_records::{Bytes, DamageRule};
use std::alloc::{AllocError, Global};

/// How many bytes of an upload record are its user and its digest.
const PAIR: usize = 34;

/// The upload record at the front, behind those before, whose users and digests were met. The first record has
/// this number, and there are so many users.
#[tactic(auto, unfolding(crate::specs::Uploads::upload_at, crate::specs::Uploads::upload_rules))]
fn upload_of(
    alloc: Global,
    first: u32,
    users: u16,
    before: &[UploadRecord],
    pairs: &mut Met,
    bytes: &[u8],
) -> Result<UploadRecord, LedgerError>
    requires first { first ≤ 1000 }
    requires few { length before.now < upload_limit }
    requires fit { All (λ e. e.user < 2 ^ 16) before.now }
    requires met { (key : List ℕ) → is_met pairs.old key ≡ list_any (λ e. bytes_eq (u16_text e.user ++ e.digest) key) before.now }
    ensures gives { LedgerGives (λ x. (x, upload_size)) result (upload_at first users before.now bytes.now) }
    ensures size { IfOk result (λ _. upload_size ≤ length bytes.now) }
    ensures fits { IfOk result (λ x. x.user < 2 ^ 16) }
    ensures added { IfOk result (λ x. (key : List ℕ) → is_met pairs.new key ≡ (bytes_eq (u16_text x.user ++ x.digest) key || is_met pairs.old key)) }
{
    let item = first + before.len() as u32;
    if bytes.len() < UPLOAD_SIZE {
        return Err(damaged(item, DamageRule::Short));
    }
    let upload = UploadRecord::read(bytes);
    if upload.wrong_user(users) {
        return Err(damaged(item, DamageRule::User));
    }
    let pair = &bytes[..PAIR];
    if pairs.add(alloc, pair)? {
        return Err(damaged(item, DamageRule::Twice));
    }
    if upload.counts.too_many() {
        return Err(damaged(item, DamageRule::Counts));
    }
    Ok(upload)
}

/// So many upload records, of which none may stand twice, and the bytes behind the last. The first has this number, and there
/// are so many users.
fn met_uploads(
    alloc: Global,
    first: u32,
    users: u16,
    count: u32,
    bytes: &[u8],
) -> Result<(Uploads, &[u8]), LedgerError>
    requires first { first ≤ 1000 }
    requires count { count ≤ upload_limit }
    ensures { LedgerGives (λ x. (x.0, x.1.now)) result (records_at (upload_at first users) count [] bytes.now) }
{
    let mut uploads = Uploads::new(alloc);
    let mut pairs = Met::new(alloc);
    let mut rest = bytes;
    for _ in 0..count {
        let upload = upload_of(alloc, first, users, uploads.as_slice(), &mut pairs, rest)?;
        uploads.add(upload)?;
        rest = &rest[UPLOAD_SIZE..];
    }
    Ok((uploads, rest))
}

/// The upload record at the front, behind those before, of which none has its user and digest. The first record has this
/// number, and there are so many users.
#[tactic(auto, unfolding(crate::specs::Uploads::upload_at, crate::specs::Uploads::upload_rules))]
fn new_upload_of(
    first: u32,
    users: u16,
    before: &[UploadRecord],
    bytes: &[u8],
) -> Result<UploadRecord, LedgerError>
    requires first { first ≤ 1000 }
    requires few { length before.now < upload_limit }
    requires new { upload_size ≤ length bytes.now → is_repeated before.now (upload_in_record bytes.now) ≡ false }
    ensures gives { LedgerGives (λ x. (x, upload_size)) result (upload_at first users before.now bytes.now) }
    ensures size { IfOk result (λ _. upload_size ≤ length bytes.now) }
    ensures read { IfOk result (λ x. x ≡ upload_in_record bytes.now) }
{
    let item = first + before.len() as u32;
    if bytes.len() < UPLOAD_SIZE {
        return Err(damaged(item, DamageRule::Short));
    }
    let upload = UploadRecord::read(bytes);
    if upload.wrong_user(users) {
        return Err(damaged(item, DamageRule::User));
    }
    if upload.counts.too_many() {
        return Err(damaged(item, DamageRule::Counts));
    }
    Ok(upload)
}

/// So many upload records, whose digests begin unlike, and the bytes behind the last. The first has this number, and there
/// are so many users.
fn apart_uploads(
    alloc: Global,
    first: u32,
    users: u16,
    count: u32,
    bytes: &[u8],
) -> Result<(Uploads, &[u8]), LedgerError>
    requires first { first ≤ 1000 }
    requires count { count ≤ upload_limit }
    requires apart { IsDistinct nat_eq (digest_numbers count bytes.now) }
    ensures { LedgerGives (λ x. (x.0, x.1.now)) result (records_at (upload_at first users) count [] bytes.now) }
{
    let mut uploads = Uploads::new(alloc);
    let mut rest = bytes;
    for _ in 0..count {
        let upload = new_upload_of(first, users, uploads.as_slice(), rest)?;
        uploads.add(upload)?;
        rest = &rest[UPLOAD_SIZE..];
    }
    Ok((uploads, rest))
}

/// So many upload records, and the bytes behind the last. The first has this number, and there are so many users.
///
/// Where the digests begin unlike, as they nearly always do, no pair stands twice, and none is kept.
pub(crate) fn uploads_of(
    alloc: Global,
    first: u32,
    users: u16,
    count: u32,
    bytes: &[u8],
) -> Result<(Uploads, &[u8]), LedgerError>
    requires first { first ≤ 1000 }
    requires count { count ≤ upload_limit }
    ensures { LedgerGives (λ x. (x.0, x.1.now)) result (records_at (upload_at first users) count [] bytes.now) }
{
    let mut numbers = numbers_of(alloc, count, bytes)?;
    if are_apart(&mut numbers) {
        apart_uploads(alloc, first, users, count, bytes)
    } else {
        met_uploads(alloc, first, users, count, bytes)
    }
}

/// Adds upload records.
pub(crate) fn add_uploads(out: &mut Bytes, uploads: &[UploadRecord]) -> Result<(), AllocError>
    requires { All (λ e. e.user < 2 ^ 16) uploads.now }
    ensures { OnOk result (out.new ≡ out.old ++ flat_map upload_text uploads.now) }
{
    for upload in uploads {
        upload.write(out)?;
    }
    Ok(())
}
