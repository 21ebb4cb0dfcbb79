//! How the two folders lie to each other.
use crate::identity::Identity;
use std::alloc::AllocError;
use std::fs;
use std::io::{self, ErrorKind};
use std::path::{Path, PathBuf};

/// How a data folder and a shelf's lie to each other.
#[derive(Clone, Copy, Debug, PartialEq, Eq)]
pub enum Placement {
    /// No file of the one can be a file of the other.
    Apart,
    /// They are one folder, or one lies in the other.
    Shared,
    /// It can't be told, since looking failed so.
    Unknown(ErrorKind),
}

/// What lies above a path: the folder before its last `/`, or, where it has none, the current folder, which is the
/// empty path here.
fn folder_above(path: &str) -> &str {
    match path.rsplit_once('/') {
        Some(("", _)) => "/",
        Some((folder, _)) => folder,
        None => "",
    }
}

/// The path of a folder that is there, and of what would lie there. What a `..` means in it is known only once
/// the folders before it are there.
fn with_missing(there: PathBuf, missing: &str) -> io::Result<PathBuf> {
    if missing.split('/').any(|part| part == "..") {
        return Err(ErrorKind::NotFound.into());
    }
    let mut path = there;
    path.push(missing)?;
    Ok(path)
}

/// The path of what is or would be there, with symbolic links followed as far as it is there.
fn real_path(rt: &HostRuntime, path: &str) -> io::Result<PathBuf> {
    let mut front = path;
    for _ in 0..=path.len() {
        match fs::canonicalize(rt, if front.is_empty() { "." } else { front }) {
            Ok(there) => {
                let rest = path.strip_prefix(front).unwrap_or(path);
                return with_missing(there, rest.trim_start_matches('/'));
            }
            Err(error) if error.kind() == ErrorKind::NotFound => front = folder_above(front),
            Err(error) => return Err(error),
        }
    }
    Err(ErrorKind::NotFound.into())
}

fn share(rt: &HostRuntime, data: &str, shelf: &str) -> io::Result<bool> {
    let data = real_path(rt, data)?;
    let shelf = real_path(rt, shelf)?;
    let (data, shelf) = (data.as_str(), shelf.as_str());
    Ok(lies_in(rt, data, shelf)? || lies_in(rt, shelf, data)?)
}

/// Whether a path is below a folder, which needn't be there, or is the folder itself: by its name, or where the folder
/// has another name on the way, as one that is mounted twice has.
fn lies_in(rt: &HostRuntime, path: &str, folder: &str) -> io::Result<bool> {
    if Path::new(path).starts_with(folder) {
        return Ok(true);
    }
    let Some(wanted) = Identity::at(rt, folder)? else {
        return Ok(false);
    };
    let mut front = path;
    for _ in 0..=path.len() {
        if Identity::at(rt, front)? == Some(wanted) {
            return Ok(true);
        }
        if front == "/" {
            return Ok(false);
        }
        front = folder_above(front);
    }
    Ok(false)
}

impl Placement {
    /// How the two folders lie to each other, which needn't be there. Only a file of the shelf that is none of
    /// the board's own may be written, so a command that touches the board asks for `Apart`.
    ///
    /// The error comes where there is no memory to look.
    pub fn of(rt: &HostRuntime, data: &str, shelf: &str) -> Result<Placement, AllocError> {
        match share(rt, data, shelf) {
            Ok(true) => Ok(Placement::Shared),
            Ok(false) => Ok(Placement::Apart),
            Err(error) if error.kind() == ErrorKind::OutOfMemory => Err(AllocError),
            Err(error) => Ok(Placement::Unknown(error.kind())),
        }
    }
}
