//! Ledgers, as they are read, written and damaged. A case is what it asks, and then users, uploads, and a change of
//! their ledger's bytes.
ghost use Rattle.std.specs.Prelude.{IfOk};
ghost use Rattle.board_ledger.specs.Valid.{IsStored};

use super::ledger_texts::{ledger_in, ledger_text, version_of};
use board_ledger::{Ledger, LedgerError, OpenOffer, UploadRecord, User, upload_patches};
use byte_lists::Bytes;
use intent_journal::{Patch, Patches};
use std::alloc::{AllocError, Global};
use test_cases::{Miss, expect_cases, quoted};

/// Whether a ledger has the size of these bytes, and is written so.
fn is_written(alloc: Global, ledger: &Ledger, bytes: &[u8]) -> Result<bool, AllocError>
    requires { IsStored ledger.now }
{
    let written = ledger.write(alloc)?;
    Ok(ledger.size() == bytes.len() as u64 && written.as_slice() == bytes)
}

/// Of how many bytes a ledger was read, of which version, and whether these are written of it.
fn ledger_found(alloc: Global, ledger: &Ledger, size: usize, today: &[u8]) -> Result<String, Miss>
    requires { IsStored ledger.now }
{
    let is_written = is_written(alloc, ledger, today)?;
    let version = ledger.version();
    Ok(format!(in alloc; "{size} version {version} written {is_written}")?)
}

/// That of bytes, or what is damaged.
fn outcome(alloc: Global, bytes: &[u8], today: &[u8]) -> Result<String, Miss> {
    match Ledger::read(alloc, bytes) {
        Ok(ledger) => ledger_found(alloc, &ledger, bytes.len(), today),
        Err(error) => Ok(format!(in alloc; "{error}")?),
    }
}

/// What comes of a ledger, which is written as it is.
fn read_all(alloc: Global, words: &[Bytes]) -> Result<String, Miss> {
    let bytes = ledger_in(alloc, words)?;
    outcome(alloc, bytes.as_slice(), bytes.as_slice())
}

/// What comes of a ledger of version 1, which is written as the same one of version 2.
fn read_old(alloc: Global, words: &[Bytes]) -> Result<String, Miss> {
    let [users, uploads] = words else {
        return Err(Miss::Words);
    };
    let bytes = ledger_text(alloc, b'1', users.as_slice(), uploads.as_slice())?;
    let today = ledger_text(alloc, b'2', users.as_slice(), uploads.as_slice())?;
    outcome(alloc, bytes.as_slice(), today.as_slice())
}

/// The ledger that bytes are.
fn ledger_read(alloc: Global, bytes: &[u8]) -> Result<Ledger, Miss>
    ensures { IfOk result IsStored }
{
    match Ledger::read(alloc, bytes) {
        Ok(ledger) => Ok(ledger),
        Err(_) => Err(Miss::Unreached),
    }
}

/// The ledger of these users and uploads in a version.
fn ledger_of(alloc: Global, version: u8, users: &[u8], uploads: &[u8]) -> Result<Ledger, Miss>
    ensures { IfOk result IsStored }
{
    let bytes = ledger_text(alloc, version, users, uploads)?;
    ledger_read(alloc, bytes.as_slice())
}

/// The moment, the serial number, the id and the zones, and of the third conference its number and its rules.
fn setup_of(alloc: Global, ledger: &Ledger) -> Result<String, Miss> {
    let setup = &ledger.setup;
    let news = setup.conference(2).ok_or(Miss::Unreached)?;
    Ok(format!(in alloc;
        "{} {} {} {:?} {} readonly {} private {}",
        ledger.created,
        setup.serial(),
        setup.bbsid().as_slice().escape_ascii(),
        setup.fields().zones.as_slice(),
        news.number,
        news.readonly,
        news.private
    )?)
}

/// Adds an offer with its highs.
fn add_offer(alloc: Global, text: &mut String, offer: &OpenOffer) -> Result<(), AllocError> {
    let highs = offer.highs.as_slice();
    let offer = format!(in alloc; ", {} {highs:?}", offer.number)?;
    text.push_str(offer.as_str())
}

/// A user's name, rights, conferences and last packet, and each offer with its highs.
fn user_text(alloc: Global, user: &User) -> Result<String, AllocError> {
    let mut text = format!(in alloc;
        "{} net {} in {} last {}",
        user.name.as_slice().escape_ascii(),
        user.net,
        user.members,
        user.last
    )?;
    for offer in user.offers.as_slice() {
        add_offer(alloc, &mut text, offer)?;
    }
    Ok(text)
}

fn upload_text(alloc: Global, upload: &UploadRecord) -> Result<String, AllocError> {
    format!(in alloc;
        "{} posted {} refused {} {}",
        upload.user,
        upload.counts.posted,
        upload.counts.refused,
        upload.digest.escape_ascii()
    )
}

/// The setup of a ledger, its second user or its second upload.
fn value_in(alloc: Global, ledger: &Ledger, value: &[u8]) -> Result<String, Miss> {
    match value {
        b"setup" => setup_of(alloc, ledger),
        b"user" => Ok(user_text(alloc, ledger.users.get(1).ok_or(Miss::Words)?)?),
        b"upload" => Ok(upload_text(alloc, ledger.uploads.get(1).ok_or(Miss::Words)?)?),
        _ => Err(Miss::Words),
    }
}

/// That of a ledger that is read.
fn value_of(alloc: Global, words: &[Bytes]) -> Result<String, Miss> {
    let [value, version, users, uploads] = words else {
        return Err(Miss::Words);
    };
    let version = version_of(version.as_slice())?;
    let ledger = ledger_of(alloc, version, users.as_slice(), uploads.as_slice())?;
    value_in(alloc, &ledger, value.as_slice())
}

/// The patches by which a ledger without upload records gets the first of another ledger of as many users.
fn first_upload(
    alloc: Global,
    ledger: &Ledger,
    other: &Ledger,
) -> Result<Option<Patches>, AllocError>
    requires ledger { IsStored ledger.now }
    requires other { IsStored other.now }
{
    if ledger.version() != 2 || other.version() != 2 {
        return Ok(None);
    }
    let Some(upload) = other.uploads.get(0) else {
        return Ok(None);
    };
    if ledger.uploads.len() != 0 {
        return Ok(None);
    }
    if ledger.users.len() != other.users.len() {
        return Ok(None);
    }
    Ok(Some(upload_patches(alloc, ledger, upload)?))
}

/// The file of a patch, its place and its bytes.
fn patch_text(alloc: Global, patch: &Patch) -> Result<String, AllocError> {
    match patch {
        Patch::Put { file, at, bytes } => {
            let bytes = quoted(alloc, bytes.as_slice())?;
            format!(in alloc; "[{} {at} {bytes}]", file.number())
        }
        Patch::Whole { .. } => String::from_str(alloc, "[whole]"),
    }
}

/// Adds each of these patches.
fn add_patches(alloc: Global, text: &mut String, patches: &Patches) -> Result<(), AllocError> {
    for patch in patches.as_slice() {
        text.push_str(patch_text(alloc, patch)?.as_str())?;
    }
    Ok(())
}

/// The patches by which a ledger without upload records gets the first of another ledger of as many users.
fn patches_found(alloc: Global, ledger: &Ledger, other: &Ledger) -> Result<String, Miss>
    requires ledger { IsStored ledger.now }
    requires other { IsStored other.now }
{
    let patches = first_upload(alloc, ledger, other)?.ok_or(Miss::Unreached)?;
    let mut text = String::new(alloc);
    add_patches(alloc, &mut text, &patches)?;
    Ok(text)
}

/// The patches by which the ledger of these users gets its first upload record.
fn upload_put(alloc: Global, words: &[Bytes]) -> Result<String, Miss> {
    let [users, uploads] = words else {
        return Err(Miss::Words);
    };
    let ledger = ledger_of(alloc, b'2', users.as_slice(), b"")?;
    let other = ledger_of(alloc, b'2', users.as_slice(), uploads.as_slice())?;
    patches_found(alloc, &ledger, &other)
}

/// What is found of a case, which begins with what it asks.
fn found(alloc: Global, words: &[Bytes]) -> Result<String, Miss> {
    let [asked, words @ ..] = words else {
        return Err(Miss::Words);
    };
    match asked.as_slice() {
        b"today" => read_all(alloc, words),
        b"old" => read_old(alloc, words),
        b"value" => value_of(alloc, words),
        b"put" => upload_put(alloc, words),
        _ => Err(Miss::Words),
    }
}

const CASES: &str = r#"
# Ledgers that are read and written.
today 2 "" "" => 119 version 2 written true
today 2 AE 12 => 375 version 2 written true
today 2 AF 12 => 375 version 2 written true
today 2 AE 12 227 \x04 => 375 version 2 written true
# Those of version 1.
old "" "" => 119 version 1 written true
old AE 12 => 279 version 1 written true
old ABSC "" => 272 version 1 written true
# Changes of the records of a board of four users, and of each rule of a board of two users and two uploads: record 0,
# conferences, users, upload records. First in version 1, and then what is different in version 2.
today 1 ABSC "" 0 X => damaged: LEDGER.DAT, record 0: magic
today 1 ABSC "" cut 23 => damaged: LEDGER.DAT, record 0: short
today 1 ABSC "" 4 \x09 => damaged: LEDGER.DAT, record 0: version
today 1 ABSC "" 6 \0 => damaged: LEDGER.DAT, record 0: count
today 1 ABSC "" add \0 => damaged: LEDGER.DAT, record 8: rest
today 1 AE 12 6 \x41 => damaged: LEDGER.DAT, record 0: count
today 1 AE 12 8 \xF5\x01 => damaged: LEDGER.DAT, record 0: count
today 1 AE 12 10 \x11 => damaged: LEDGER.DAT, record 0: count
today 1 AE 12 12 \xA1\x86\x01 => damaged: LEDGER.DAT, record 0: count
today 1 AE 12 20 \xA0\x86\x01 => damaged: LEDGER.DAT, record 0: number
today 1 AE 12 cut 82 => damaged: LEDGER.DAT, record 0: short
today 1 AE 12 26 \x1F => damaged: LEDGER.DAT, record 0: text
today 1 AE 12 61 \x22 => damaged: LEDGER.DAT, record 0: text
today 1 AE 12 72 - => damaged: LEDGER.DAT, record 0: id
today 1 AE 12 79 \x02 => damaged: LEDGER.DAT, record 0: zones
today 1 AE 12 cut 95 => damaged: LEDGER.DAT, record 1: short
today 1 AE 12 85 \x03 => damaged: LEDGER.DAT, record 1: kind
today 1 AE 12 86 \x04 => damaged: LEDGER.DAT, record 1: rules
today 1 AE 12 89 \x7F => damaged: LEDGER.DAT, record 1: name
today 1 AE 12 96 \0 => damaged: LEDGER.DAT, record 2: order
today 1 AE 12 cut 156 => damaged: LEDGER.DAT, record 4: short
today 1 AE 12 121 \x20 => damaged: LEDGER.DAT, record 4: name
today 1 AE 12 159 "aNN lEE" => damaged: LEDGER.DAT, record 5: twice
today 1 AE 12 128 \x02 => damaged: LEDGER.DAT, record 4: flags
today 1 AE 12 137 \0 => damaged: LEDGER.DAT, record 4: member
today 1 AE 12 137 \x08 => damaged: LEDGER.DAT, record 4: member
today 1 AE 12 133 \x01 => damaged: LEDGER.DAT, record 4: offer
today 1 AE 12 145 \x01 => damaged: LEDGER.DAT, record 4: offer
today 1 AE 12 187 \x01 => damaged: LEDGER.DAT, record 5: offer
today 1 AE 12 cut 278 => damaged: LEDGER.DAT, record 7: short
today 1 AE 12 195 \0 => damaged: LEDGER.DAT, record 6: user
today 1 AE 12 195 \x03 => damaged: LEDGER.DAT, record 6: user
today 1 AE 12 237 \x01 => damaged: LEDGER.DAT, record 7: twice
today 1 AE 12 271 \x01 => damaged: LEDGER.DAT, record 7: counts
today 1 AE 12 add \0 => damaged: LEDGER.DAT, record 8: rest
today 1 AE 12 4 \x03 => damaged: LEDGER.DAT, record 0: version
today 1 AE 12 171 \x04 => damaged: LEDGER.DAT, record 5: offer
today 1 AE 12 171 \0 => damaged: LEDGER.DAT, record 5: offer
today 1 AE 12 4 \x02 => damaged: LEDGER.DAT, record 4: member
today 2 AE 12 4 \0 => damaged: LEDGER.DAT, record 0: version
today 2 AE 12 4 \x03 => damaged: LEDGER.DAT, record 0: version
today 2 AE 12 4 \x01 => damaged: LEDGER.DAT, record 4: member
today 2 AE 12 cut 82 => damaged: LEDGER.DAT, record 0: short
today 2 AE 12 cut 204 => damaged: LEDGER.DAT, record 4: short
today 2 AE 12 121 \x20 => damaged: LEDGER.DAT, record 4: name
today 2 AE 12 207 "aNN lEE" => damaged: LEDGER.DAT, record 5: twice
today 2 AE 12 128 \x02 => damaged: LEDGER.DAT, record 4: flags
today 2 AE 12 133 \0 => damaged: LEDGER.DAT, record 4: member
today 2 AE 12 133 \x08 => damaged: LEDGER.DAT, record 4: member
today 2 AE 12 141 \x01 => damaged: LEDGER.DAT, record 4: offer
today 2 AE 12 145 \x01 => damaged: LEDGER.DAT, record 4: offer
today 2 AE 12 204 \x01 => damaged: LEDGER.DAT, record 4: offer
today 2 AE 12 227 \x06 => damaged: LEDGER.DAT, record 5: offer
today 2 AE 12 227 \0 => damaged: LEDGER.DAT, record 5: offer
today 2 AE 12 235 \x01 => damaged: LEDGER.DAT, record 5: offer
today 2 AE 12 243 \x05 => damaged: LEDGER.DAT, record 5: offer
today 2 AE 12 247 \x01 => damaged: LEDGER.DAT, record 5: offer
today 2 AE 12 275 \x05 => damaged: LEDGER.DAT, record 5: offer
today 2 AF 12 235 \x01 => damaged: LEDGER.DAT, record 5: offer
today 2 AF 12 243 \x02 => damaged: LEDGER.DAT, record 5: offer
today 2 AF 12 259 \0 => damaged: LEDGER.DAT, record 5: offer
today 2 AF 12 259 \0\{16} => damaged: LEDGER.DAT, record 5: offer
today 2 AF 12 275 \x0A => damaged: LEDGER.DAT, record 5: offer
today 2 AF 12 283 \x01 => damaged: LEDGER.DAT, record 5: offer
today 2 AE 12 cut 374 => damaged: LEDGER.DAT, record 7: short
today 2 AE 12 291 \x03 => damaged: LEDGER.DAT, record 6: user
today 2 AE 12 333 \x01 => damaged: LEDGER.DAT, record 7: twice
today 2 AE 12 367 \x01 => damaged: LEDGER.DAT, record 7: counts
today 2 AE 12 add \0 => damaged: LEDGER.DAT, record 8: rest
# Values.
value setup 1 "" "" => 1000000000 12345 TESTBBS [1, 2] 7 readonly true private false
value setup 2 "" "" => 1000000000 12345 TESTBBS [1, 2] 7 readonly true private false
value user 1 AE "" => Eve Poe net false in 1 last 5, 5 [3, 0, 0]
value user 2 AE "" => Eve Poe net false in 1 last 5, 5 [3, 0, 0]
value user 2 EA "" => Ann Lee net true in 7 last 0
value user 2 AF "" => Flo Fox net false in 5 last 9, 2 [1, 0, 0], 4 [3, 0, 2], 8 [3, 0, 2], 9 [7, 0, 2]
value upload 1 AB 12 => 2 posted 0 refused 8191 digest of thirty-two bytes, SHA2
value upload 2 AB 12 => 2 posted 0 refused 8191 digest of thirty-two bytes, SHA2
# The patches of an upload record.
put AE 1 => [0 12 "\x01\x00\x00\x00"][0 291 "\x01\x00digest of thirty-two bytes, SHA2\x01\x00\x00\x00\x02\x00\x00\x00"]
"#;

#[test]
fn ledgers_are_read_and_written(rt: HostRuntime) -> Result<(), Miss> {
    expect_cases(rt.alloc(), CASES, found)
}
