//! The files of a board, which no name of the shelf may reach to write, be it by a hard link or through a folder that is
//! mounted twice.
ghost use Rattle.std.specs.Prelude.{◌≡◌, length};

use crate::data_paths::{FILE_COUNT, data_path};
use crate::identity::Identity;
use crate::named_files::{NamedFiles, named_files};
use std::alloc::AllocError;
use std::io::{self, ErrorKind};

/// The paths of the files of a board, and of its lock.
#[derive(Drop)]
pub struct OwnFiles {
    folder: String,
    /// The folder's path and a `/`.
    inside: String,
    lock_path: String,
    paths: Vec<String>,
    ghost all: { length paths.items ≡ 258 },
}

/// What keeps a file of the shelf from being written.
fn is_own() -> io::Error {
    io::Error::new(
        ErrorKind::PermissionDenied,
        "a file of DATA: DATA and SHELF must not lie in one another",
    )
}

/// What it means that a file of the board can't be looked at.
fn of_look(_: io::Error) -> io::Error {
    io::Error::new(
        ErrorKind::PermissionDenied,
        "it can't be told whether it is a file of DATA",
    )
}

/// Whether a path leads to a file or a folder.
fn is_there(rt: &HostRuntime, path: &str) -> io::Result<bool> {
    Ok(Identity::at(rt, path).map_err(of_look)?.is_some())
}

/// Whether a path leads to this file.
fn leads_to(rt: &HostRuntime, path: &str, found: Identity) -> io::Result<bool> {
    Ok(Identity::at(rt, path).map_err(of_look)? == Some(found))
}

impl OwnFiles {
    /// Those under a folder, which needn't be there.
    pub fn new(rt: &HostRuntime, folder: &str) -> Result<OwnFiles, AllocError> {
        let alloc = rt.alloc();
        let mut paths = Vec::new(alloc);
        for number in 0..258u16 {
            paths.push(data_path(alloc, folder, number)?)?;
        }
        let lock_path = format!(in alloc; "{folder}/LOCK")?;
        let inside = format!(in alloc; "{folder}/")?;
        let folder = String::from_str(alloc, folder)?;
        Ok(OwnFiles {
            folder,
            inside,
            lock_path,
            paths,
        })
    }

    /// Which of the files may be there.
    fn named(&self, rt: &HostRuntime) -> io::Result<NamedFiles> {
        match named_files(rt, self.inside.as_str()) {
            Ok(named) => Ok(named),
            Err(error) => match error.kind() {
                ErrorKind::NotFound | ErrorKind::NotADirectory => Ok([false; FILE_COUNT]),
                _ => Err(of_look(error)),
            },
        }
    }

    /// Fails where this is one of the files.
    pub fn expect_other(&self, rt: &HostRuntime, found: Identity) -> io::Result<()> {
        let named = self.named(rt)?;
        for (number, path) in self.paths.iter().enumerate() {
            if named[number] && leads_to(rt, path, found)? {
                return Err(is_own());
            }
        }
        if leads_to(rt, &self.lock_path, found)? {
            return Err(is_own());
        }
        Ok(())
    }

    /// Fails where a folder on the way to a path, from the place on at which the shelf's own folder ends, is the folder of
    /// a board.
    pub fn expect_outside(&self, rt: &HostRuntime, path: &str, end: usize) -> io::Result<()> {
        if !self.is_board(rt)? {
            return Ok(());
        }
        let own = Identity::at(rt, self.folder.as_str()).map_err(of_look)?;
        let mut front = path;
        for _ in 0..path.len() {
            let Some((folder, _)) = front.rsplit_once('/') else {
                return Ok(());
            };
            if Identity::at(rt, folder).map_err(of_look)? == own {
                return Err(is_own());
            }
            if folder.len() < end {
                return Ok(());
            }
            front = folder;
        }
        Ok(())
    }

    /// Whether any of the files is there, so that the folder is a board's.
    fn is_board(&self, rt: &HostRuntime) -> io::Result<bool> {
        let named = self.named(rt)?;
        for (number, path) in self.paths.iter().enumerate() {
            if named[number] && is_there(rt, path)? {
                return Ok(true);
            }
        }
        is_there(rt, &self.lock_path)
    }
}
