//! What lies in real folders.
use std::os::unix::fs::PermissionsExt;
use std::test::Fail;
use std::{fs, io};

/// A failure where something isn't so.
pub(crate) fn expect(so: bool, what: &'static str) -> Result<(), Fail> {
    if so { Ok(()) } else { Err(Fail::from(what)) }
}

/// Whether the file at a path has these bytes.
pub(crate) fn holds(rt: &HostRuntime, path: &str, bytes: &[u8]) -> io::Result<bool> {
    let found = fs::read(rt, path)?;
    Ok(found.as_slice() == bytes)
}

/// Whether an empty file lies at a path, and only its owner may read and write it.
pub(crate) fn is_private_file(rt: &HostRuntime, path: &str) -> io::Result<bool> {
    let found = fs::metadata(rt, path)?;
    Ok(found.len() == 0 && found.permissions().mode() & 0o777 == 0o600)
}

/// Whether only its owner may enter the folder at a path.
pub(crate) fn is_private_folder(rt: &HostRuntime, path: &str) -> io::Result<bool> {
    let found = fs::metadata(rt, path)?;
    Ok(found.permissions().mode() & 0o777 == 0o700)
}
