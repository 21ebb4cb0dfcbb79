//! A journal as long as a board may be, and a recovery that is stopped in it.
use super::boards::ROOM;
use super::numbered::written_out;
use byte_lists::Bytes;
use door_outside::FileId;
use memory_outside::{ImageChoice, MemoryHost, MemoryShelf};
use std::alloc::{AllocError, Global};
use test_runs::{Miss, Status, Steps, empty_host, played, put_data, run_to_fault, stops_at};

/// What stands before the patches of an open journal that makes the 25 files of the board that aren't empty: each patch
/// has 11 bytes and those of its file, which are 34,603,008 together.
const FRONT: &[u8] = b"OQDJ1\x19\0\0\0\x13\x01\x10\x02";

/// Adds the patch that makes a file these bytes, if there are any. The journal itself gets none.
fn add_whole(journal: &mut Bytes, file: FileId, bytes: &[u8]) -> Result<(), AllocError> {
    if file == FileId::journal() || bytes.is_empty() {
        return Ok(());
    }
    let length = u32::try_from(bytes.len()).unwrap_or(u32::MAX);
    journal.add(b"\0")?;
    journal.add(&file.number().to_le_bytes())?;
    journal.add(b"\0\0\0\0")?;
    journal.add(&length.to_le_bytes())?;
    journal.add(bytes)
}

/// Adds a patch for each data file of a host that isn't empty.
fn add_patches(journal: &mut Bytes, host: &MemoryHost) -> Result<(), AllocError> {
    for number in 0..258 {
        if let Some(file) = FileId::new(number) {
            add_whole(journal, file, host.file(file))?;
        }
    }
    Ok(())
}

/// Puts an open journal that makes all data files those of a full board.
fn put_open(alloc: Global, host: &mut MemoryHost, full: &MemoryHost) -> Result<(), Miss> {
    let mut journal = Bytes::from_slice(alloc, FRONT)?;
    add_patches(&mut journal, full)?;
    put_data(host, FileId::journal(), journal.as_slice())
}

/// A recovery was stopped once it had written some of the files, and after a crash the next one leaves the whole board.
fn expect_whole(
    alloc: Global,
    board: &mut Steps,
    stopped: &MemoryHost,
    shelf: &mut MemoryShelf,
) -> Result<(), Miss> {
    if stopped.wrote() == 0 || stopped.wrote() > 33_000_000 {
        return Err(Miss::Broken("the recovery isn't stopped in its middle"));
    }
    board.after_crash(alloc, stopped, ImageChoice::Mixed(1), shelf)?;
    Ok(())
}

/// Stops a recovery of the board in its middle, beside files that were empty.
fn expect_recovery(
    alloc: Global,
    board: &mut Steps,
    host: &mut MemoryHost,
    shelf: &mut MemoryShelf,
) -> Result<(), Miss> {
    put_open(alloc, host, board.start()?)?;
    let plan = stops_at(alloc, Some(40));
    let stopped = run_to_fault(alloc, host, plan, shelf, "check", Status::DiskFault)?;
    expect_whole(alloc, board, &stopped, shelf)
}

/// Does so with the board of a host.
fn expect_recovered(alloc: Global, full: MemoryHost, shelf: &mut MemoryShelf) -> Result<(), Miss> {
    let mut board = Steps::of(alloc, full, shelf, "")?;
    let mut host = empty_host(alloc);
    expect_recovery(alloc, &mut board, &mut host, shelf)
}

/// Does so with a full board.
pub fn expect_full(alloc: Global) -> Result<(), Miss> {
    let transcript = written_out(alloc, &[ROOM])?;
    let mut stage = played(alloc, transcript.as_str())?;
    expect_recovered(alloc, stage.host, &mut stage.shelf)
}
