//! The four files of the conference in place 0, after patches of them.
use byte_lists::Bytes;
use intent_journal::{Patch, Patches};
use jam_base::BaseFiles;
use std::alloc::Global;
use std::test::Fail;

/// Four files that were never written.
pub fn no_files(alloc: Global) -> BaseFiles {
    BaseFiles {
        jhr: Bytes::new(alloc),
        jdt: Bytes::new(alloc),
        jdx: Bytes::new(alloc),
        jlr: Bytes::new(alloc),
    }
}

/// A file with bytes written over it from a place on, which is at most its end.
fn written(alloc: Global, file: &[u8], at: usize, bytes: &[u8]) -> Result<Bytes, Fail> {
    let front = file.get(..at).ok_or("a put behind the end")?;
    let mut made = Bytes::from_slice(alloc, front)?;
    made.add(bytes)?;
    let behind = &file[at..];
    if let Some(rest) = behind.get(bytes.len()..) {
        made.add(rest)?;
    }
    Ok(made)
}

/// A file after a patch of it.
fn with_patch(alloc: Global, file: &Bytes, patch: &Patch) -> Result<Bytes, Fail> {
    match patch {
        Patch::Whole { bytes, .. } => Ok(bytes.copy(alloc)?),
        Patch::Put { at, bytes, .. } => {
            written(alloc, file.as_slice(), *at as usize, bytes.as_slice())
        }
    }
}

/// The number of the file that a patch changes.
fn number(patch: &Patch) -> u16 {
    match patch {
        Patch::Whole { file, .. } | Patch::Put { file, .. } => file.number(),
    }
}

/// One of the files by its number.
pub fn file_of(files: &BaseFiles, number: u16) -> Option<&Bytes> {
    match number {
        2 => Some(&files.jhr),
        3 => Some(&files.jdt),
        4 => Some(&files.jdx),
        5 => Some(&files.jlr),
        _ => None,
    }
}

/// Gives one of the files these bytes.
pub fn set(files: &mut BaseFiles, number: u16, bytes: Bytes) {
    match number {
        2 => files.jhr = bytes,
        3 => files.jdt = bytes,
        4 => files.jdx = bytes,
        _ => files.jlr = bytes,
    }
}

/// Makes the files what they are after these patches.
pub fn patched(alloc: Global, files: &mut BaseFiles, patches: &Patches) -> Result<(), Fail> {
    for patch in patches.as_slice() {
        let file = file_of(files, number(patch)).ok_or("a file of another conference")?;
        let made = with_patch(alloc, file, patch)?;
        set(files, number(patch), made);
    }
    Ok(())
}

/// How many bytes patches put.
pub fn bytes_put(patches: &Patches) -> u64 {
    let mut count = 0u64;
    for patch in patches.as_slice() {
        let (Patch::Whole { bytes, .. } | Patch::Put { bytes, .. }) = patch;
        count = count.saturating_add(bytes.as_slice().len() as u64);
    }
    count
}
