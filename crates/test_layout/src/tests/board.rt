//! What the files of boards are read as.
use super::ledger_texts::{ledger_text, version_of};
use board_layout::{FoundBoard, ReadError, StoredBoard, read_board};
use byte_lists::Bytes;
use door_outside::FileId;
use memory_outside::{CallNumbers, FaultPlan, MemoryHost};
use std::alloc::{AllocError, Global};
use test_cases::{Miss, bytes_of, expect_cases, number_of};

/// The base header of a conference without messages.
const HEADER: &str = r"JAM\0\0\xCA\x9A;\0\0\0\0\0\0\0\0\xFF\xFF\xFF\xFF\x01\0\{1003}";

/// A host of empty files, whose calls fail from one on, or from none where that is 0.
fn empty(alloc: Global, stop: u32) -> MemoryHost {
    let fails = CallNumbers::new(alloc);
    let stop = (stop > 0).then_some(stop);
    MemoryHost::new(alloc, FaultPlan { fails, stop })
}

/// Gives the file of a number these bytes.
fn put(host: &mut MemoryHost, number: u32, bytes: &[u8]) -> Result<(), Miss> {
    let number = u16::try_from(number).ok();
    let file = number.and_then(FileId::new).ok_or(Miss::Words)?;
    if bytes.len() > 0x7FFF_FFFF {
        return Err(Miss::Unreached);
    }
    host.put(file, bytes)?;
    Ok(())
}

/// Puts the ledger of three conferences and these users, in a version.
fn put_ledger(alloc: Global, host: &mut MemoryHost, version: u8, users: &[u8]) -> Result<(), Miss> {
    let ledger = ledger_text(alloc, version, users, b"")?;
    put(host, 0, ledger.as_slice())
}

/// Gives three conferences a base header.
fn put_headers(host: &mut MemoryHost, header: &[u8]) -> Result<(), Miss> {
    for number in [2, 6, 10] {
        put(host, number, header)?;
    }
    Ok(())
}

/// Puts the files of the board of three conferences and these users, without messages, with its ledger in a version.
fn put_board(alloc: Global, host: &mut MemoryHost, version: u8, users: &[u8]) -> Result<(), Miss> {
    put_ledger(alloc, host, version, users)?;
    let header = bytes_of(alloc, HEADER.as_bytes())?;
    put_headers(host, header.as_slice())
}

/// Puts files, each by its number and its bytes.
fn put_files(host: &mut MemoryHost, words: &[Bytes]) -> Result<(), Miss> {
    for file in words.chunks(2) {
        let [number, bytes] = file else {
            return Err(Miss::Words);
        };
        put(host, number_of(number.as_slice())?, bytes.as_slice())?;
    }
    Ok(())
}

/// How many slots the conference of a place has.
fn slot_count(board: &StoredBoard, place: u8) -> Option<u32> {
    Some(board.base_at(place)?.slot_count())
}

/// Whether the files are of version 1, how many bytes they have in version 2, of each place how many slots there are, the
/// serial number, how many conferences there are, and the version of the ledger.
fn described(alloc: Global, found: &FoundBoard) -> Result<String, AllocError> {
    let age = if found.is_old { "old" } else { "new" };
    let board = &found.board;
    let slots = [
        slot_count(board, 0),
        slot_count(board, 1),
        slot_count(board, 2),
        slot_count(board, 3),
    ];
    let ledger = board.ledger();
    format!(in alloc;
        "{age} {} {slots:?} {} {} version {}",
        board.size(),
        ledger.setup.serial(),
        board.bases().len(),
        ledger.version
    )
}

/// What comes of a read.
fn told(alloc: Global, read: &Result<Option<FoundBoard>, ReadError>) -> Result<String, AllocError> {
    match read {
        Ok(Some(found)) => described(alloc, found),
        Ok(None) => String::from_str(alloc, "none"),
        Err(error) => format!(in alloc; "{error}"),
    }
}

/// What the files of a host are read as.
fn outcome(alloc: Global, host: &mut MemoryHost) -> Result<String, AllocError> {
    let read = read_board(alloc, host);
    told(alloc, &read)
}

/// What a board on empty files is read as: the version of its ledger or `-` for no board, its users, and files in place of
/// its own.
fn board_on(
    alloc: Global,
    host: &mut MemoryHost,
    version: &[u8],
    users: &[u8],
    files: &[Bytes],
) -> Result<String, Miss> {
    let version = version_of(version)?;
    if version != b'-' {
        put_board(alloc, host, version, users)?;
    }
    put_files(host, files)?;
    Ok(outcome(alloc, host)?)
}

/// The same where all calls fail from one on.
fn board_read(alloc: Global, words: &[Bytes]) -> Result<String, Miss> {
    let [stop, version, users, files @ ..] = words else {
        return Err(Miss::Words);
    };
    let mut host = empty(alloc, number_of(stop.as_slice())?);
    board_on(
        alloc,
        &mut host,
        version.as_slice(),
        users.as_slice(),
        files,
    )
}

const CASES: &str = r#"
# The first damage comes by file; a high behind the conferences, whose last-read record of Eve is there. The faults are
# those of the first call, of the first after the lengths of 257 files, of the first after the look at the version, and of
# the length of the last file.
0 - "" => none
0 2 "" => new 3191 [Some(0), Some(0), Some(0), None] 12345 3 version 2
0 2 "" 0 "" => damaged: LEDGER.DAT, record 0: short
0 2 "" 5 x => damaged: C00.JLR, record 0: rest
0 2 "" 6 "" => damaged: C01.JHR, record 0: short
0 2 "" 12 x => damaged: C02.JDX, record 0: short
0 2 "" 14 x => damaged: C03.JHR, record 0: rest
0 2 "" 257 x => damaged: C63.JLR, record 0: rest
0 2 E 5 \xF3\x70\xCA\x1C\x01\0\0\0\0\0\0\0\0\0\0\0 => damaged: LEDGER.DAT, record 4: high
0 2 E 5 \xF3\x70\xCA\x1C\x01\0\0\0\0\0\0\0\0\0\0\0 255 x => damaged: C63.JDT, record 0: rest
1 2 "" => disk fault
258 2 "" => disk fault
260 2 "" => disk fault
529 2 "" => disk fault
530 2 "" => new 3191 [Some(0), Some(0), Some(0), None] 12345 3 version 2
# A board of either version has the same conferences, and its ledger has version 2. In version 1 a user's record is 48
# bytes shorter where there are three conferences.
0 1 "" => old 3191 [Some(0), Some(0), Some(0), None] 12345 3 version 2
0 1 B 5 \x91\x64\x92\xC6\x01\0\0\0\0\0\0\0\0\0\0\0 => old 3293 [Some(0), Some(0), Some(0), None] 12345 3 version 2
0 2 B 5 \x91\x64\x92\xC6\x01\0\0\0\0\0\0\0\0\0\0\0 => new 3293 [Some(0), Some(0), Some(0), None] 12345 3 version 2
0 1 B => damaged: C00.JLR, record 0: short
0 1 E 5 \xF3\x70\xCA\x1C\x01\0\0\0\0\0\0\0\0\0\0\0 => damaged: LEDGER.DAT, record 4: high
0 3 "" => damaged: LEDGER.DAT, record 0: version
0 1 "" 257 x => damaged: C63.JLR, record 0: rest
258 1 "" => disk fault
259 1 "" => disk fault
529 1 "" => disk fault
# The size comes before all. Its limit is 34,603,008 bytes.
0 2 "" 3 \0\{34599818} => damaged: LEDGER.DAT, record 0: size
0 2 "" 3 \0\{34599817} => damaged: C00.JDT, record 1: rest
# With a ledger of version 1 the limit is 33,554,432 bytes.
0 1 "" 3 \0\{33551242} => damaged: LEDGER.DAT, record 0: size
0 1 "" 3 \0\{33551241} => damaged: C00.JDT, record 1: rest
# It is that where file 0 has 24 bytes and begins as one of version 1, whatever else is wrong in it.
0 2 "" 0 QMDL\x01\0\0\{18} 3 \0\{33551360} => damaged: LEDGER.DAT, record 0: size
0 2 "" 0 QMDL\x01\0\0\{17} 3 \0\{33551360} => damaged: LEDGER.DAT, record 0: short
"#;

#[test]
fn boards_are_read(rt: HostRuntime) -> Result<(), Miss> {
    expect_cases(rt.alloc(), CASES, board_read)
}
