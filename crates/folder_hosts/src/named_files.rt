//! Which files of a board a folder has. One listing tells it, in place of a question for each name.
use crate::data_paths::{FILE_COUNT, file_number};
use std::fs::Files;
use std::io::{self, ErrorKind, Read};

/// Room for many names at once, each of which has 255 bytes at most.
const ROOM: usize = 8192;

/// Of each file of a board, by its number, whether something may have its name, so that it is worth asking for.
pub type NamedFiles = [bool; FILE_COUNT];

/// Which files of a board a folder lists, whose path ends with a `/`, so that a symbolic link to it is
/// followed. It takes no memory. A call that is interrupted is made again, as the opens of files are.
pub fn named_files(rt: &HostRuntime, folder: &str) -> io::Result<NamedFiles> {
    for _ in 0..u64::MAX {
        match rt.open_dir(folder) {
            Ok(mut names) => return named_in(&mut names),
            Err(error) if error.kind() == ErrorKind::Interrupted => {}
            Err(error) => return Err(error),
        }
    }
    Err(ErrorKind::TimedOut.into())
}

/// Which files of a board have these names.
fn named_in<R: Read>(names: &mut R) -> io::Result<NamedFiles> {
    let mut room = [0; ROOM];
    let mut named = [false; FILE_COUNT];
    for _ in 0..u64::MAX {
        match names.read(&mut room) {
            Ok(0) => return Ok(named),
            Ok(count) => mark(&mut named, &room[..count]),
            Err(error) if error.kind() == ErrorKind::Interrupted => {}
            Err(error) => return Err(error),
        }
    }
    Err(ErrorKind::TimedOut.into())
}

/// Marks the files of these names, behind each of which is a NUL.
fn mark(named: &mut NamedFiles, names: &[u8]) {
    for name in names.split(|byte| *byte == 0) {
        if let Some(number) = file_number(name) {
            named[number] = true;
        }
    }
}
