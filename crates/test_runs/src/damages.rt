//! Files that are damaged.
use crate::data_files::{data_file, put_data};
use crate::directions::parted;
use crate::files::copies;
use crate::miss::Miss;
use crate::outside::no_faults;
use byte_lists::Bytes;
use door_outside::FileId;
use memory_outside::{ImageChoice, MemoryHost};
use std::alloc::Global;

/// How a file is damaged.
#[derive(Clone, Copy)]
pub enum Damage {
    /// The byte at a place, from 0, becomes another.
    Becomes(usize, u8),
    /// The file has only so many bytes.
    Cut(usize),
    /// A byte follows the file so many times.
    Longer(usize, u8),
}

/// Adds a file of which the byte at a place becomes another.
fn add_with(changed: &mut Bytes, file: &[u8], place: usize, byte: u8) -> Result<(), Miss> {
    let front = file.get(..place).ok_or("too short")?;
    let [_, behind @ ..] = &file[place..] else {
        return Err(Miss::Broken("too short"));
    };
    changed.add(front)?;
    changed.add(&[byte])?;
    changed.add(behind)?;
    Ok(())
}

/// Adds a file with its damage.
fn add_damaged(
    alloc: Global,
    changed: &mut Bytes,
    file: &[u8],
    damage: Damage,
) -> Result<(), Miss> {
    match damage {
        Damage::Becomes(place, byte) => add_with(changed, file, place, byte),
        Damage::Cut(len) => Ok(changed.add(file.get(..len).ok_or("too short")?)?),
        Damage::Longer(count, byte) => {
            changed.add(file)?;
            Ok(changed.add(copies(alloc, &[byte], count)?.as_slice())?)
        }
    }
}

/// A file with its damage.
pub fn damaged(alloc: Global, file: &[u8], damage: Damage) -> Result<Bytes, Miss> {
    let mut changed = Bytes::new(alloc);
    add_damaged(alloc, &mut changed, file, damage)?;
    Ok(changed)
}

/// The host with a damaged data file.
pub fn host_with(
    alloc: Global,
    whole: &MemoryHost,
    file: FileId,
    damage: Damage,
) -> Result<MemoryHost, Miss> {
    let mut host = whole.after_crash(alloc, ImageChoice::Synced, no_faults(alloc))?;
    let changed = damaged(alloc, host.file(file), damage)?;
    put_data(&mut host, file, changed.as_slice())?;
    Ok(host)
}

/// A number and a byte.
fn two_numbers(text: &str) -> Option<(usize, u8)> {
    let (number, byte) = text.split_once(' ')?;
    Some((number.parse().ok()?, byte.parse().ok()?))
}

/// The damage that a text is.
fn damage_of(text: &str) -> Option<Damage> {
    let (kind, numbers) = text.split_once(' ')?;
    match kind {
        "becomes" => {
            let (place, byte) = two_numbers(numbers)?;
            Some(Damage::Becomes(place, byte))
        }
        "cut" => Some(Damage::Cut(numbers.parse().ok()?)),
        "longer" => {
            let (count, byte) = two_numbers(numbers)?;
            Some(Damage::Longer(count, byte))
        }
        _ => None,
    }
}

/// The host with a damaged file. The damage is the number of the file, and `becomes PLACE BYTE`, `cut LENGTH` or
/// `longer COUNT BYTE`.
pub(crate) fn damaged_host(
    alloc: Global,
    whole: &MemoryHost,
    text: &str,
) -> Result<MemoryHost, Miss> {
    let (number, damage) = parted(text)?;
    let damage = damage_of(damage).ok_or("this is no damage")?;
    host_with(alloc, whole, data_file(number)?, damage)
}
