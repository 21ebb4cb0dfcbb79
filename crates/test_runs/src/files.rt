//! Files of a shelf.
use crate::miss::Miss;
use byte_lists::Bytes;
use door_outside::ShelfName;
use memory_outside::MemoryShelf;
use std::alloc::{AllocError, Global};

/// The name that a text is.
fn name_of(alloc: Global, name: &str) -> Result<ShelfName, Miss> {
    let parsed = ShelfName::parse(alloc, name.as_bytes())?;
    Ok(parsed.ok_or("no name of a file")?)
}

/// Puts a file on the shelf.
pub fn put(shelf: &mut MemoryShelf, alloc: Global, name: &str, file: &[u8]) -> Result<(), Miss> {
    let name = name_of(alloc, name)?;
    shelf.put(&name, file)?;
    Ok(())
}

/// A copy of a file of the shelf.
pub fn file_of(alloc: Global, shelf: &MemoryShelf, name: &str) -> Result<Bytes, Miss> {
    let key = name_of(alloc, name)?;
    let Some(file) = shelf.get(&key) else {
        return Err(Miss::no_file(alloc, name)?);
    };
    Ok(Bytes::from_slice(alloc, file)?)
}

/// A text so many times.
pub fn copies(alloc: Global, text: &[u8], count: usize) -> Result<Bytes, AllocError> {
    let mut file = Bytes::new(alloc);
    for _ in 0..count {
        file.add(text)?;
    }
    Ok(file)
}

/// A file, or none, with a text behind it.
fn longer(alloc: Global, before: Option<&[u8]>, text: &[u8]) -> Result<Bytes, AllocError> {
    let mut file = Bytes::from_slice(alloc, before.unwrap_or(b""))?;
    file.add(text)?;
    Ok(file)
}

/// Adds a text so many times to the end of a file, which may be missing.
pub(crate) fn add_copies(
    shelf: &mut MemoryShelf,
    alloc: Global,
    name: &str,
    text: &[u8],
    count: usize,
) -> Result<(), Miss> {
    let name = name_of(alloc, name)?;
    let file = longer(
        alloc,
        shelf.get(&name),
        copies(alloc, text, count)?.as_slice(),
    )?;
    shelf.put(&name, file.as_slice())?;
    Ok(())
}

/// The first place in which two texts differ, or where the shorter ends.
fn first_difference(file: &[u8], wanted: &[u8]) -> usize {
    for (place, (found, byte)) in file.iter().zip(wanted.iter()).enumerate() {
        if found != byte {
            return place;
        }
    }
    file.len().min(wanted.len())
}

/// Looks whether a file has these bytes.
pub fn expect_file(
    alloc: Global,
    shelf: &MemoryShelf,
    name: &str,
    wanted: &[u8],
) -> Result<(), Miss> {
    let key = name_of(alloc, name)?;
    let Some(file) = shelf.get(&key) else {
        return Err(Miss::no_file(alloc, name)?);
    };
    if file != wanted {
        let place = first_difference(file, wanted);
        return Err(Miss::file(alloc, name, place, file, wanted)?);
    }
    Ok(())
}

/// Looks whether a file has so many bytes.
pub(crate) fn expect_file_length(
    alloc: Global,
    shelf: &MemoryShelf,
    name: &str,
    length: usize,
) -> Result<(), Miss> {
    let key = name_of(alloc, name)?;
    let Some(file) = shelf.get(&key) else {
        return Err(Miss::no_file(alloc, name)?);
    };
    if file.len() != length {
        return Err(Miss::length(alloc, name, file.len(), length)?);
    }
    Ok(())
}
