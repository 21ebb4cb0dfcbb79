// What the words of `reply` and `compose` name.
ghost use Rattle.std.specs.Prelude.{◌≡◌, IfOk};
ghost use Rattle.cmd_entries.specs.Writing.{writing};

use crate::one_word::{file_of, folder_of, read_number};
use byte_lists::Bytes;
use door_outside::ShelfName;
use std::alloc::{AllocError, Global};

/// A folder, a number, a file and a reply packet.
#[derive(Drop)]
pub(crate) struct Writing {
    pub folder: ShelfName,
    pub number: u32,
    pub file: ShelfName,
    pub rep: ShelfName,
}

/// What four words name.
pub(crate) fn writing_of(alloc: Global, rest: &[Bytes]) -> Result<Option<Writing>, AllocError>
    ensures { IfOk result (λ found. found ≡ writing rest.now) }
{
    let [folder, number, file, rep] = rest else {
        return Ok(None);
    };
    let Some(folder) = folder_of(alloc, folder.as_slice())? else {
        return Ok(None);
    };
    let Some(number) = read_number(number.as_slice()) else {
        return Ok(None);
    };
    let Some(file) = file_of(alloc, file.as_slice())? else {
        return Ok(None);
    };
    match file_of(alloc, rep.as_slice())? {
        Some(rep) => Ok(Some(Writing {
            folder,
            number,
            file,
            rep,
        })),
        None => Ok(None),
    }
}
