//! How files and folders are opened, made and locked.
use crate::identity::Identity;
use std::fs::{self, DirBuilder, File, Metadata, OpenOptions};
use std::io::{self, ErrorKind};
use std::os::fd::AsRawFd;
use std::os::unix::fs::{DirBuilderExt, OpenOptionsExt};

/// Where a standard stream was closed, the system gives its number to the next file that is opened. What is
/// meant for the stream must not land in that file, so it gets another number.
pub fn above_standard(file: File) -> io::Result<File> {
    if file.as_raw_fd() <= 2 {
        file.try_clone()
    } else {
        Ok(file)
    }
}

/// Fails unless a regular file was found, and says why what was found can't be used as one: it is a folder, a symbolic
/// link, or a pipe or the like.
pub fn expect_regular(found: &Metadata) -> io::Result<()> {
    if found.is_file() {
        Ok(())
    } else if found.is_dir() {
        Err(ErrorKind::IsADirectory.into())
    } else if found.is_symlink() {
        Err(io::Error::new(
            ErrorKind::FilesystemLoop,
            "a symbolic link, which isn't followed here",
        ))
    } else {
        Err(ErrorKind::Unsupported.into())
    }
}

/// Opens the regular file of that path by these options. It looks at the file before it opens it, since the open of a
/// pipe would wait for its other end, and since a symbolic link isn't followed. It looks again at what was opened,
/// since another could have come to be there meanwhile.
fn open_same(rt: &HostRuntime, path: &str, options: &OpenOptions) -> io::Result<File> {
    let found = fs::symlink_metadata(rt, path)?;
    expect_regular(&found)?;
    let file = above_standard(options.open(rt, path)?)?;
    if Identity::of(&file.metadata()?) == Identity::of(&found) {
        Ok(file)
    } else {
        Err(io::Error::new(ErrorKind::Other, "another file came to be there"))
    }
}

/// The regular file of that path, opened to be read, if it is there. A symbolic link isn't followed.
pub fn open_found(rt: &HostRuntime, path: &str) -> io::Result<Option<File>> {
    let mut options = OpenOptions::new();
    options.read(true);
    match open_same(rt, path, &options) {
        Ok(file) => Ok(Some(file)),
        Err(error) if error.kind() == ErrorKind::NotFound => Ok(None),
        Err(error) => Err(error),
    }
}

/// Opens a regular file to be read and written, or makes it in a folder that is there. A symbolic link isn't followed. The
/// flag says whether it was made.
pub fn open_or_make(rt: &HostRuntime, path: &str) -> io::Result<(File, bool)> {
    let mut options = OpenOptions::new();
    options.read(true).write(true);
    match open_same(rt, path, &options) {
        Ok(file) => Ok((file, false)),
        Err(error) if error.kind() == ErrorKind::NotFound => Ok((open_new(rt, path)?, true)),
        Err(error) => Err(error),
    }
}

/// Makes a file, private to its owner, in a folder that is there, and opens it to be read and written. It fails where
/// anything has that name.
pub fn open_new(rt: &HostRuntime, path: &str) -> io::Result<File> {
    let file = OpenOptions::new()
        .read(true)
        .write(true)
        .create_new(true)
        .mode(0o600)
        .open(rt, path)?;
    above_standard(file)
}

/// Opens a file, or makes it in a folder that is there, and takes its exclusive lock. It doesn't wait: a
/// lock that another holds is a fault. The lock lasts as long as the file is open.
pub fn open_locked(rt: &HostRuntime, path: &str) -> io::Result<File> {
    let (file, _) = open_or_make(rt, path)?;
    file.try_lock()?;
    Ok(file)
}

/// Makes a folder, private to its owner, where it is missing.
pub fn make_folder(rt: &HostRuntime, path: &str) -> io::Result<()> {
    match DirBuilder::new().mode(0o700).create(rt, path) {
        Err(error) if error.kind() != ErrorKind::AlreadyExists => Err(error),
        _ => Ok(()),
    }
}

/// Whether anything has that name, be it a symbolic link that leads nowhere. A `/` behind the name would follow the link.
pub fn is_named(rt: &HostRuntime, path: &str) -> io::Result<bool> {
    let name = path.trim_end_matches('/');
    match fs::symlink_metadata(rt, if name.is_empty() { path } else { name }) {
        Ok(_) => Ok(true),
        Err(error) if error.kind() == ErrorKind::NotFound => Ok(false),
        Err(error) => Err(error),
    }
}

/// The folder above, opened so that a name in it can be put on the disk. One that may not be read is left to whoever made
/// the folder.
pub fn open_above(rt: &HostRuntime, path: &str) -> io::Result<Option<File>> {
    match fs::open(rt, path) {
        Ok(folder) => Ok(Some(folder)),
        Err(error) if error.kind() == ErrorKind::PermissionDenied => Ok(None),
        Err(error) => Err(error),
    }
}
