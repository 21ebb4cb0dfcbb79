//! A host over a real folder, beside one in memory.
use super::examples::{answered, numbered, parted};
use super::folders::{expect, holds, is_private_file, is_private_folder};
use super::memory_host::{call_is_so, empty};
use door_outside::{FileId, Host};
use folder_hosts::FolderHost;
use std::fs;
use std::test::Fail;

/// A folder that lies beside those of the tests.
const SHELF: &str = "qwkdoor_test_no_shelf";

/// The calls of a host on file 5 of an empty disk, and what each answers: the same on a real disk and in memory. `fill`
/// reads into 8 dashes: how many bytes came, and what stands there then.
const DISK: &str = "\
length = 0
fill 0 = 0 --------
write 3 hello
cut 6
cut 9
sync
length = 6
fill 2 = 4 \0hel----
write 8
length = 8
";

fn fill<H: Host>(host: &mut H, file: FileId, at: &str, answer: &str) -> Option<bool> {
    let at = at.parse::<u16>().ok()?;
    let (count, left) = numbered(answer)?;
    let mut buf = [b'-'; 8];
    let given = host.read_at(file, u32::from(at), &mut buf).ok()?;
    Some(given == count as usize && buf.as_slice() == left.as_bytes())
}

/// Whether a line on file 5 is so.
fn is_so<H: Host>(host: &mut H, line: &str) -> Option<bool> {
    let (call, answer) = answered(line);
    let (verb, words) = parted(call);
    let file = FileId::new(5)?;
    match verb {
        "fill" => fill(host, file, words, answer),
        _ => call_is_so(host, file, verb, words, answer),
    }
}

/// Carries out the calls on an empty disk.
fn use_disk<H: Host>(host: &mut H) -> Result<(), Fail> {
    for line in DISK.lines() {
        let Some(true) = is_so(host, line) else {
            return Err(Fail::from(line));
        };
    }
    Ok(())
}

#[test]
fn a_disk_in_memory_is_used(rt: HostRuntime) -> Result<(), Fail> {
    use_disk(&mut empty(rt.alloc()))
}

/// Carries them out in a folder that isn't there.
fn use_folder(rt: HostRuntime, folder: &str) -> Result<(), Fail> {
    let mut host = FolderHost::new(rt, folder, SHELF)?;
    use_disk(&mut host)
}

/// Files of the first conference that stay empty, and the lock.
const EMPTY: [&str; 4] = [
    "qwkdoor_test_files/C00.JHR",
    "qwkdoor_test_files/C00.JDT",
    "qwkdoor_test_files/C00.JDX",
    "qwkdoor_test_files/LOCK",
];

/// Looks at what the calls left in the folder.
fn look_at_files(rt: &HostRuntime) -> Result<(), Fail> {
    let jlr = "qwkdoor_test_files/C00.JLR";
    expect(holds(rt, jlr, b"\0\0\0hel\0\0")?, jlr)?;
    for path in &EMPTY {
        expect(is_private_file(rt, path)?, path)?;
    }
    let folder = "qwkdoor_test_files";
    expect(is_private_folder(rt, folder)?, folder)
}

#[test]
fn a_conference_has_four_private_files(rt: HostRuntime) -> Result<(), Fail> {
    let folder = "qwkdoor_test_files";
    let _ = fs::remove_dir_all(&rt, folder);
    use_folder(rt, folder)?;
    look_at_files(&rt)?;
    fs::remove_dir_all(&rt, folder)?;
    Ok(())
}

/// Whether a write of four bytes into the journal is done.
fn writes(host: &mut FolderHost, bytes: &[u8; 4]) -> bool {
    host.write_at(FileId::journal(), 0, bytes).is_ok()
}

/// Whether the journal has this length.
fn finds(host: &mut FolderHost, length: u32) -> bool {
    match host.length(FileId::journal()) {
        Ok(found) => found == length,
        Err(_) => false,
    }
}

/// Whether a late run can't read while another holds the folder, nor an early one write.
fn are_kept_out(early: &mut FolderHost, late: &mut FolderHost) -> bool {
    late.length(FileId::journal()).is_err() && !writes(early, b"lost")
}

/// Whether the late one finds what the other left, once that has ended, and the early one is still kept out.
fn late_is_let_in(early: &mut FolderHost, late: &mut FolderHost) -> bool {
    !writes(early, b"lost") && finds(late, 4)
}

/// A run that holds the folder.
fn holder(rt: HostRuntime, folder: &str) -> Result<FolderHost, Fail> {
    let mut holder = FolderHost::new(rt, folder, SHELF)?;
    if !writes(&mut holder, b"mine") {
        return Err(Fail::from("a run holds the folder"));
    }
    Ok(holder)
}

/// Begins a late run while one holds the folder, which ends then.
fn begin_late(
    rt: HostRuntime,
    folder: &str,
    early: &mut FolderHost,
    holder: FolderHost,
) -> Result<(), Fail> {
    let mut late = FolderHost::new(rt, folder, SHELF)?;
    let kept_out = are_kept_out(early, &mut late);
    drop(holder);
    let let_in = late_is_let_in(early, &mut late);
    expect(kept_out && let_in, "a second run is kept out")
}

/// Begins an early run, which only looks, and then the others.
fn begin_early(rt: HostRuntime, folder: &str) -> Result<(), Fail> {
    let mut early = FolderHost::new(rt, folder, SHELF)?;
    let looked = finds(&mut early, 0);
    let unmade = matches!(fs::exists(&rt, folder), Ok(false));
    expect(looked && unmade, "a look makes no folder")?;
    begin_late(rt, folder, &mut early, holder(rt, folder)?)
}

#[test]
fn a_second_run_is_kept_out(rt: HostRuntime) -> Result<(), Fail> {
    let folder = "qwkdoor_test_lock";
    let _ = fs::remove_dir_all(&rt, folder);
    begin_early(rt, folder)?;
    let journal = "qwkdoor_test_lock/JOURNAL.DAT";
    expect(holds(&rt, journal, b"mine")?, journal)?;
    fs::remove_dir_all(&rt, folder)?;
    Ok(())
}
