//! The machine's last start. After a sync that failed, the system may drop what wasn't written, and answer Ok the next
//! time. So no sync shows anything until the machine is started again.

ghost use Rattle.std.specs.Prelude.{◌+◌, ◌≤◌, length};

use crate::transfer::{WriterAt, read_full, write_full};
use std::fs::{self, File};
use std::io::{self, ErrorKind};
use std::os::unix::fs::MetadataExt;

/// Where the system tells the id of its last start.
const BOOT_ID: &str = "/proc/sys/kernel/random/boot_id";

/// The bytes of such an id.
pub type BootId = [u8; 36];

/// The id of the machine's last start, or None where the system doesn't tell it.
pub fn boot_id(rt: &HostRuntime) -> io::Result<Option<BootId>> {
    match fs::open(rt, BOOT_ID) {
        Ok(file) => id_in(&file),
        Err(error) => match error.kind() {
            ErrorKind::NotFound | ErrorKind::PermissionDenied => Ok(None),
            _ => Err(error),
        },
    }
}

/// The id at the beginning of a file, or None where it is shorter.
fn id_in(file: &File) -> io::Result<Option<BootId>> {
    let mut id = [0; 36];
    let count = read_full(file, 0, &mut id)?;
    Ok(if count == 36 { Some(id) } else { None })
}

/// What is kept of a failed sync in the lock's file, as text: the id of the machine's last start, and the file's device
/// and its number there. So a copy of the file says nothing, nor does one that came from another machine.
pub type SyncMark = [u8; 71];

/// The mark of a sync that fails now, or None where the system tells no id.
pub fn sync_mark(rt: &HostRuntime, lock: &File) -> io::Result<Option<SyncMark>> {
    let Some(id) = boot_id(rt)? else {
        return Ok(None);
    };
    let lock = lock.metadata()?;
    let mut mark = [b' '; 71];
    put(&mut mark, 0, &id);
    put(&mut mark, 37, &hex_digits(lock.dev()));
    put(&mut mark, 54, &hex_digits(lock.ino()));
    mark[70] = b'\n';
    Ok(Some(mark))
}

/// Puts bytes into a mark from a place on.
fn put(mark: &mut SyncMark, at: usize, bytes: &[u8])
    requires { at + length bytes.now ≤ 71 }
{
    for (place, byte) in bytes.iter().enumerate() {
        mark[at + place] = *byte;
    }
}

/// A number's sixteen digits to the base of 16.
fn hex_digits(value: u64) -> [u8; 16] {
    let mut digits = [b'0'; 16];
    let mut rest = value;
    for place in 0..16usize {
        digits[15 - place] = b"0123456789abcdef"[(rest % 16) as usize];
        rest /= 16;
    }
    digits
}

/// Whether the lock's file keeps that a sync of its folder failed since the machine's last start. A mark that wasn't written
/// whole counts, where it has the id; program 1.0 wrote no more than that.
pub fn has_mark(rt: &HostRuntime, lock: &File) -> io::Result<bool> {
    let mut kept = [0; 71];
    let count = read_full(lock, 0, &mut kept)?;
    if count < 36 {
        return Ok(false);
    }
    match sync_mark(rt, lock)? {
        Some(mark) => Ok(mark.starts_with(&kept[..count])),
        None => Ok(false),
    }
}

/// Keeps in the lock's file that a sync failed, and answers whether that is on the disk.
pub fn keep_mark(rt: &HostRuntime, lock: &File) -> io::Result<bool> {
    let Some(mark) = sync_mark(rt, lock)? else {
        return Ok(false);
    };
    write_full(&mut WriterAt::new(lock, 0), &mark)?;
    lock.set_len(71)?;
    lock.sync_all()?;
    Ok(true)
}
