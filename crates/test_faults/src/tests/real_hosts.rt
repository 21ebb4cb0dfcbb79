//! Hosts over real folders that may not begin, or whose files become shorter.
use door_outside::{DiskFault, FileId, Host};
use folder_hosts::{FolderHost, SyncMark, has_mark, keep_mark, sync_mark};
use std::fs::{self, File, OpenOptions};
use std::test::Fail;

/// A folder that lies beside those of the tests.
const SHELF: &str = "qwkdoor_test_no_shelf";

/// Whether a host with a shelf among its files fails at each call, and makes no folder.
fn is_fault(rt: HostRuntime, shelf: &str) -> Result<bool, Fail> {
    let mut host = FolderHost::new(rt, "b", shelf)?;
    let unread = host.length(FileId::journal()).is_err();
    let unwritten = host.write_at(FileId::journal(), 0, b"lost").is_err();
    drop(host);
    Ok(unread && unwritten && !fs::exists(&rt, "b")?)
}

#[test]
fn a_shelf_among_the_files_is_a_fault(rt: HostRuntime) -> Result<(), Fail> {
    assert!(rt; is_fault(rt, ".")? && is_fault(rt, "b")? && is_fault(rt, "none/../b")?);
    Ok(())
}

/// The file of a lock.
const LOCK: &str = "qwkdoor_test_boot/LOCK";

/// Whether a run can begin where the lock's file has this content.
fn begins(rt: HostRuntime, kept: &[u8]) -> Result<bool, Fail> {
    fs::write(&rt, LOCK, kept)?;
    Ok(
        FolderHost::new(rt, "qwkdoor_test_boot", SHELF)?
            .length(FileId::journal())
            .is_ok(),
    )
}

/// Whether a run begins exactly where it may. It may where the lock's file has the mark of another start or of another
/// file, a front of this mark without the whole id, or nothing. It may not where the file has this mark, or its id
/// alone.
fn begins_after_a_start(rt: HostRuntime, here: &SyncMark) -> Result<bool, Fail> {
    let (mut other_start, mut other_file) = (*here, *here);
    other_start[35] = b'x';
    other_file[69] = b'x';
    let others = begins(rt, &other_start)? && begins(rt, &other_file)?;
    let fronts = begins(rt, &here[..35])? && begins(rt, b"")? && !begins(rt, &here[..36])?;
    Ok(others && fronts && !begins(rt, here)?)
}

/// Whether a mark is kept in the lock's file, and no more, and says nothing in another file.
fn is_kept(rt: &HostRuntime, lock: &File, mark: &SyncMark) -> Result<bool, Fail> {
    fs::write(
        rt,
        LOCK,
        b"what was there before, in more bytes than the seventy-one of such a mark",
    )?;
    let kept = keep_mark(rt, lock)? && has_mark(rt, lock)?;
    let found = fs::read(rt, LOCK)?;
    let copy = "qwkdoor_test_boot/COPY";
    fs::write(rt, copy, mark)?;
    let copied = has_mark(rt, &fs::open(rt, copy)?)?;
    Ok(kept && !copied && found.as_slice() == mark.as_slice())
}

/// Whether a mark keeps runs out as long as it should.
fn keeps_out(rt: HostRuntime) -> Result<bool, Fail> {
    fs::write(&rt, LOCK, b"")?;
    let lock = OpenOptions::new().read(true).write(true).open(&rt, LOCK)?;
    let here = sync_mark(&rt, &lock)?.ok_or("a mark")?;
    Ok(is_kept(&rt, &lock, &here)? && begins_after_a_start(rt, &here)?)
}

#[test]
fn a_sync_that_failed_since_the_last_start_keeps_runs_out(rt: HostRuntime) -> Result<(), Fail> {
    let folder = "qwkdoor_test_boot";
    let _ = fs::remove_dir_all(&rt, folder);
    fs::create_dir_all(&rt, folder)?;
    assert!(rt; keeps_out(rt)?);
    fs::remove_dir_all(&rt, folder)?;
    Ok(())
}

/// Whether a host cuts its ledger to five bytes, and reads them.
fn is_cut(host: &mut FolderHost) -> bool {
    let ledger = FileId::ledger();
    let mut buf = [b'-'; 8];
    host.write_at(ledger, 0, b"ledger") == Ok(())
        && host.length(ledger) == Ok(6)
        && host.read_at(ledger, 9, &mut buf) == Ok(0)
        && host.cut(ledger, 5) == Ok(())
        && host.read_at(ledger, 0, &mut buf) == Ok(5)
}

/// Whether it finds that the ledger has three bytes left, and reads these.
fn is_shorter(host: &mut FolderHost) -> bool {
    let ledger = FileId::ledger();
    let mut buf = [b'-'; 8];
    host.read_at(ledger, 0, &mut buf) == Err(DiskFault)
        && host.length(ledger) == Err(DiskFault)
        && host.read_at(ledger, 0, &mut buf[..3]) == Ok(3)
}

/// Cuts a ledger behind a host's back.
fn shorten(rt: HostRuntime, folder: &str) -> Result<bool, Fail> {
    let mut host = FolderHost::new(rt, folder, SHELF)?;
    let is_cut = is_cut(&mut host);
    fs::write(&rt, "qwkdoor_test_shorter/LEDGER.DAT", b"led")?;
    Ok(is_cut && is_shorter(&mut host))
}

#[test]
fn a_file_that_loses_bytes_during_a_run_is_a_fault(rt: HostRuntime) -> Result<(), Fail> {
    let folder = "qwkdoor_test_shorter";
    let _ = fs::remove_dir_all(&rt, folder);
    assert!(rt; shorten(rt, folder)?);
    fs::remove_dir_all(&rt, folder)?;
    Ok(())
}
