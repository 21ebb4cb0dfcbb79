//! The bytes of ledgers, with changes.
use byte_lists::Bytes;
use std::alloc::Global;
use test_cases::{Miss, bytes_of, number_of};

/// The ledger of a board of three conferences: its letters, and then what stands between its version and the count of
/// users, between that and the count of upload records, and behind that.
const LETTERS: &str = "QMDL";

const CONFERENCES: &str = r"\0\x03\0";

const ZONES: &str = r"\x02\0";

const SETUP: &str =
    r"\0\xCA\x9A;90\0\0\x0A\0Test Board\x0B\0Springfield\x08\0555-0100\x09\0Sam Sysop\x07\0TESTBBS\x01\0\x02\0\0\0\0\x02\x07\0GENERAL\x01\0\x02\0\x07\0NETMAIL\x07\0\0\x01\x04\0NEWS";

/// The record of a user's letter in version 1. Ann, Bob, Sam and Cy are users that have fetched nothing; Eve is one to whom
/// packet 5 is offered, up to message 3 of the first conference.
fn first_record(name: u8) -> &'static str {
    match name {
        b'A' => r"\x07\0Ann Lee\x01\0\0\0\0\0\0\0\0\x07\0\0\0\0\0\0\0\0\0\0\0\0\0\0\0\0\0\0\0",
        b'B' => r"\x07\0Bob Ray\0\0\0\0\0\0\0\0\0\x01\0\0\0\0\0\0\0\0\0\0\0\0\0\0\0\0\0\0\0",
        b'S' => r"\x09\0Sam Sysop\x01\0\0\0\0\0\0\0\0\x07\0\0\0\0\0\0\0\0\0\0\0\0\0\0\0\0\0\0\0",
        b'C' => r"\x06\0Cy Day\0\0\0\0\0\0\0\0\0\x01\0\0\0\0\0\0\0\0\0\0\0\0\0\0\0\0\0\0\0",
        b'E' => r"\x07\0Eve Poe\0\x05\0\0\0\x05\0\0\0\x01\0\0\0\0\0\0\0\x03\0\0\0\0\0\0\0\0\0\0\0",
        _ => "",
    }
}

/// The record of a user's letter in version 2, whose four offers have 16 bytes each. To Flo, a member of the first and the
/// third conference, the packets 2, 4, 8 and 9 are offered.
fn second_record(name: u8) -> &'static str {
    match name {
        b'A' => r"\x07\0Ann Lee\x01\0\0\0\0\x07\0\0\0\0\0\0\0\0\{64}",
        b'B' => r"\x07\0Bob Ray\0\0\0\0\0\x01\0\0\0\0\0\0\0\0\{64}",
        b'S' => r"\x09\0Sam Sysop\x01\0\0\0\0\x07\0\0\0\0\0\0\0\0\{64}",
        b'C' => r"\x06\0Cy Day\0\0\0\0\0\x01\0\0\0\0\0\0\0\0\{64}",
        b'E' =>
            r"\x07\0Eve Poe\0\x05\0\0\0\x01\0\0\0\0\0\0\0\x05\0\0\0\x03\0\0\0\0\0\0\0\0\0\0\0\0\{48}",
        b'F' => {
            r"\x07\0Flo Fox\0\x09\0\0\0\x05\0\0\0\0\0\0\0\x02\0\0\0\x01\0\0\0\0\0\0\0\0\0\0\0\x04\0\0\0\x03\0\0\0\0\0\0\0\x02\0\0\0\x08\0\0\0\x03\0\0\0\0\0\0\0\x02\0\0\0\x09\0\0\0\x07\0\0\0\0\0\0\0\x02\0\0\0"
        }
        _ => "",
    }
}

/// The upload record of a digit. They are of two users, and of one digest.
fn upload(name: u8) -> &'static str {
    match name {
        b'1' => r"\x01\0digest of thirty-two bytes, SHA2\x01\0\0\0\x02\0\0\0",
        b'2' => r"\x02\0digest of thirty-two bytes, SHA2\0\0\0\0\xFF\x1F\0\0",
        _ => "",
    }
}

/// Adds the bytes of a text with escapes.
fn add(alloc: Global, bytes: &mut Bytes, text: &str) -> Result<(), Miss> {
    let part = bytes_of(alloc, text.as_bytes())?;
    bytes.add(part.as_slice())?;
    Ok(())
}

/// Adds the records of these users in a version, which is a digit.
fn add_users(alloc: Global, bytes: &mut Bytes, version: u8, users: &[u8]) -> Result<(), Miss> {
    for name in users {
        match version {
            b'1' => add(alloc, bytes, first_record(*name))?,
            _ => add(alloc, bytes, second_record(*name))?,
        }
    }
    Ok(())
}

/// Adds these upload records.
fn add_uploads(alloc: Global, bytes: &mut Bytes, uploads: &[u8]) -> Result<(), Miss> {
    for name in uploads {
        add(alloc, bytes, upload(*name))?;
    }
    Ok(())
}

/// Adds the setup with these counts of users and uploads, in a version, which is a digit.
fn add_setup(
    alloc: Global,
    bytes: &mut Bytes,
    version: u8,
    users: usize,
    uploads: usize,
) -> Result<(), Miss> {
    add(alloc, bytes, LETTERS)?;
    bytes.add(&[version & 0x0F])?;
    add(alloc, bytes, CONFERENCES)?;
    bytes.add(&[(users % 256) as u8, 0])?;
    add(alloc, bytes, ZONES)?;
    bytes.add(&[(uploads % 256) as u8, 0, 0, 0])?;
    add(alloc, bytes, SETUP)
}

/// Adds the ledger with the records of these users and uploads.
fn add_ledger(
    alloc: Global,
    bytes: &mut Bytes,
    version: u8,
    users: &[u8],
    uploads: &[u8],
) -> Result<(), Miss> {
    add_setup(alloc, bytes, version, users.len(), uploads.len())?;
    add_users(alloc, bytes, version, users)?;
    add_uploads(alloc, bytes, uploads)
}

/// The ledger with the records of these users and uploads, in a version, which is a digit.
pub fn ledger_text(
    alloc: Global,
    version: u8,
    users: &[u8],
    uploads: &[u8],
) -> Result<Bytes, Miss> {
    let mut bytes = Bytes::new(alloc);
    add_ledger(alloc, &mut bytes, version, users, uploads)?;
    Ok(bytes)
}

/// Gives bytes others from a place on.
fn put_at(made: &mut Vec<u8>, at: usize, value: &[u8]) {
    if let Some(rest) = made.as_mut_slice().get_mut(at..) {
        let count = rest.len().min(value.len());
        rest[..count].copy_from_slice(&value[..count]);
    }
}

/// Changes bytes: `cut` keeps so many, `add` adds these, and a place has these from there on.
fn change(made: &mut Vec<u8>, place: &[u8], value: &[u8]) -> Result<(), Miss> {
    match place {
        b"cut" => made.truncate(number_of(value)? as usize),
        b"add" => made.extend_from_slice(value)?,
        _ => put_at(made, number_of(place)? as usize, value),
    }
    Ok(())
}

/// The bytes after a change.
fn changed(alloc: Global, bytes: &[u8], place: &[u8], value: &[u8]) -> Result<Bytes, Miss> {
    let mut made = bytes.to_vec(alloc)?;
    change(&mut made, place, value)?;
    Ok(Bytes::from_vec(made))
}

/// The digit of a version.
pub fn version_of(word: &[u8]) -> Result<u8, Miss> {
    match word {
        [digit] => Ok(*digit),
        _ => Err(Miss::Words),
    }
}

/// The ledger that words name: its version, its users, its uploads, and a change, if any.
pub fn ledger_in(alloc: Global, words: &[Bytes]) -> Result<Bytes, Miss> {
    let [version, users, uploads, change @ ..] = words else {
        return Err(Miss::Words);
    };
    let version = version_of(version.as_slice())?;
    let bytes = ledger_text(alloc, version, users.as_slice(), uploads.as_slice())?;
    match change {
        [] => Ok(bytes),
        [place, value] => changed(alloc, bytes.as_slice(), place.as_slice(), value.as_slice()),
        _ => Err(Miss::Words),
    }
}
