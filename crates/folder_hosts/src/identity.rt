//! Which file or folder it is, by whatever name it was found.
use std::fs::{self, Metadata};
use std::io::{self, ErrorKind};
use std::os::unix::fs::MetadataExt;

/// A file or a folder: its device, and its number there. It has one, however many names lead to it.
#[derive(Clone, Copy, Debug, PartialEq, Eq)]
pub struct Identity {
    device: u64,
    number: u64,
}

impl Identity {
    /// Which one was found.
    pub fn of(found: &Metadata) -> Identity {
        Identity {
            device: found.dev(),
            number: found.ino(),
        }
    }

    /// Which one a path leads to, if one is there, with symbolic links followed.
    pub fn at(rt: &HostRuntime, path: &str) -> io::Result<Option<Identity>> {
        match fs::metadata(rt, path) {
            Ok(found) => Ok(Some(Identity::of(&found))),
            Err(error) => match error.kind() {
                ErrorKind::NotFound | ErrorKind::NotADirectory => Ok(None),
                _ => Err(error),
            },
        }
    }
}
