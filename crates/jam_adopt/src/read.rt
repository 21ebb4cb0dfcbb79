ghost use Rattle.std.specs.Prelude.{◌≡◌, ◌≢◌, ◌↔◌, ◌≤◌, ◌<◌, ◌^◌, ◌++◌, length, take, IfOk, OnOk};
ghost use Rattle.jam_records.specs.IndexRecords.{index_at};
ghost use Rattle.jam_records.specs.Signature.{signature};
ghost use Rattle.jam_adopt.specs.Foreign.{verdict_of as verdict_of_record, found_at, foreign};
ghost use Rattle.jam_adopt.specs.Texts.{AreTables};

use crate::error::ForeignError;
use crate::found::{Foreign, Found};
use crate::tables::Tables;
use crate::verdict::verdict_of;
use jam_records::{IndexRecord, RecordError, read_base_header};
use record_numbers::u32_at;
use std::alloc::{AllocError, Global};

/// Tests the base header. What it has besides its signature is free.
fn check_base(jhr: &[u8]) -> Result<(), ForeignError>
    ensures short { (result ≡ Err ForeignError.Short) ↔ (length jhr.now < 1024) }
    ensures signature { (result ≡ Err ForeignError.Signature) ↔ ((1024 ≤ length jhr.now) × (take 4 jhr.now ≢ signature)) }
    ensures memory { result ≢ Err ForeignError.OutOfMemory }
{
    match read_base_header(jhr) {
        Ok(_) => Ok(()),
        Err(RecordError::Short) => Err(ForeignError::Short),
        Err(RecordError::Signature | RecordError::Revision) => Err(ForeignError::Signature),
    }
}

/// The record at the front.
fn record_at(bytes: &[u8]) -> IndexRecord
    requires { 8 ≤ length bytes.now }
    ensures { result ≡ index_at bytes.now }
{
    IndexRecord {
        to_crc: u32_at(bytes, 0),
        offset: u32_at(bytes, 4),
    }
}

/// Adds what becomes of a record, where it isn't passed over.
fn add_found(
    alloc: Global,
    jhr: &[u8],
    jdt: &[u8],
    tables: &Tables,
    place: u32,
    pair: IndexRecord,
    found: &mut Foreign,
) -> Result<(), AllocError>
    requires short { length jhr.now < 2 ^ 31 }
    requires tables { AreTables jhr.now jdt.now tables.now }
    ensures { OnOk result (found.new ≡ found.old ++ found_at place (verdict_of_record jhr.now jdt.now pair)) }
{
    let Some(verdict) = verdict_of(alloc, jhr, jdt, tables, pair)? else {
        return Ok(());
    };
    found.add(Found { place, verdict })
}

/// Adds what becomes of the whole records of .JDX, in order.
#[tactic(auto, unfolding(crate::specs::Foreign::foreign))]
fn add_all(
    alloc: Global,
    jhr: &[u8],
    jdt: &[u8],
    tables: &Tables,
    jdx: &[u8],
    found: &mut Foreign,
) -> Result<(), AllocError>
    requires short { length jhr.now < 2 ^ 31 }
    requires few { length jdx.now < 2 ^ 31 }
    requires tables { AreTables jhr.now jdt.now tables.now }
    ensures { OnOk result (found.new ≡ found.old ++ foreign jhr.now jdt.now jdx.now) }
{
    let mut rest = jdx;
    let mut place = 1u32;
    while rest.len() >= 8 {
        add_found(alloc, jhr, jdt, tables, place, record_at(rest), found)?;
        rest = &rest[8..];
        place += 1;
    }
    Ok(())
}

/// Another tool's base, of its .JHR, .JDT and .JDX (JAM message base proposal, revision 1). Each whole record of .JDX
/// that isn't passed over gives, in order, its place from 1 and its message, or the rule by which it is refused. Passed
/// over are records of twice FFFFFFFFh and those whose header has the bit MSG_DELETED. A header may lie anywhere in
/// .JHR, and several records may name one: each is a message of its own.
///
/// `Short` comes exactly where .JHR has fewer than 1,024 bytes, else `Signature` exactly where it doesn't begin with
/// that of JAM; after that `OutOfMemory` alone. Each file has fewer than 2^31 bytes.
///
/// The time is in proportion to the lengths of .JHR and .JDT. Each record of .JDX adds time in proportion to the
/// logarithm of .JHR's length and to the length of the message that is answered. That holds whatever subfields and
/// texts the headers share.
///
/// Besides the messages it takes 8 bytes of memory for each byte of .JHR and 5 for each of .JDT. The messages
/// themselves are bounded by the count of records alone. A .JDX of 16,777,216 bytes has 2,097,152 records. Where all
/// name one header with a text of 16,384 bytes, they are 34 GB of messages. It answers `OutOfMemory` where these can't
/// be had.
pub fn read_foreign(
    alloc: Global,
    jhr: &[u8],
    jdt: &[u8],
    jdx: &[u8],
) -> Result<Foreign, ForeignError>
    requires jhr { length jhr.now < 2 ^ 31 }
    requires jdt { length jdt.now < 2 ^ 31 }
    requires jdx { length jdx.now < 2 ^ 31 }
    ensures ok { IfOk result (λ found. found ≡ foreign jhr.now jdt.now jdx.now) }
    ensures short { (result ≡ Err ForeignError.Short) ↔ (length jhr.now < 1024) }
    ensures signature { (result ≡ Err ForeignError.Signature) ↔ ((1024 ≤ length jhr.now) × (take 4 jhr.now ≢ signature)) }
{
    check_base(jhr)?;
    let tables = Tables::of(alloc, jhr, jdt)?;
    let mut found = Foreign::new(alloc);
    add_all(alloc, jhr, jdt, &tables, jdx, &mut found)?;
    Ok(found)
}
