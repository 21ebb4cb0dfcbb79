//! Data files of a host.
use crate::miss::Miss;
use door_outside::FileId;
use memory_outside::MemoryHost;

/// The data file of a number.
pub(crate) fn data_file(number: &str) -> Result<FileId, Miss> {
    let file = number.parse().ok().and_then(FileId::new);
    Ok(file.ok_or("no number of a data file")?)
}

/// Gives a data file these bytes.
pub fn put_data(host: &mut MemoryHost, file: FileId, bytes: &[u8]) -> Result<(), Miss> {
    if bytes.len() > 0x7FFF_FFFF {
        return Err(Miss::Broken("a data file is too long"));
    }
    host.put(file, bytes)?;
    Ok(())
}

/// Looks whether a data file has these bytes from a place on, and ends with them.
pub(crate) fn expect_rest(
    host: &MemoryHost,
    file: FileId,
    place: usize,
    wanted: &[u8],
) -> Result<(), Miss> {
    if host.file(file).get(place..) != Some(wanted) {
        return Err(Miss::Data { file, place });
    }
    Ok(())
}

/// Looks whether a data file has these bytes from a place on.
pub fn expect_part(
    host: &MemoryHost,
    file: FileId,
    place: usize,
    wanted: &[u8],
) -> Result<(), Miss> {
    match host.file(file).get(place..) {
        Some(rest) if rest.starts_with(wanted) => Ok(()),
        _ => Err(Miss::Data { file, place }),
    }
}

/// Looks whether a data file has so many bytes.
pub(crate) fn expect_data_length(
    host: &MemoryHost,
    file: FileId,
    length: usize,
) -> Result<(), Miss> {
    if host.file(file).len() != length {
        return Err(Miss::Data {
            file,
            place: length,
        });
    }
    Ok(())
}
