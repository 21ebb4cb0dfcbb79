ghost use Rattle.std.specs.Prelude.{◌≡◌, ◌<◌, ◌≤◌, ◌^◌, length, IsTrue, IfOk};
ghost use Rattle.shelf_files.specs.Halts.{Comes, ShelfCauses};
ghost use Rattle.shelf_files.specs.ShelfFile.{file_within};

use crate::halt::Halt;
use crate::refusal::Refusal;
use byte_lists::Bytes;
use door_outside::{FetchError, Fetched, Shelf, ShelfName, fetch_whole};
use std::alloc::Global;

/// The most bytes of a MESSAGES.DAT that is read.
pub const PACKET_LIMIT: u32 = 41_943_040;

/// The most bytes of another file of the shelf that is read.
pub const FILE_LIMIT: u32 = 4_194_304;

/// The most bytes of a reply packet.
pub const REP_LIMIT: u32 = 1_048_576;

/// The most bytes of each file of another tool's base.
pub const FOREIGN_LIMIT: u32 = 16_777_216;

/// The whole file of that name, refused where it isn't there or has more than `most` bytes.
pub fn file_in<S: Shelf>(
    alloc: Global,
    shelf: &mut S,
    name: &ShelfName,
    most: u32,
) -> Result<Bytes, Halt>
    requires { most < 2 ^ 31 }
    ensures file { IsTrue S.tells → Comes result (λ read. read ≡ file_within (S.files shelf.old) name.now most) }
    ensures short { IfOk result (λ bytes. length bytes ≤ most) }
    ensures unchanged { IsTrue S.tells → S.files shelf.new ≡ S.files shelf.old }
    ensures causes { ShelfCauses (S.faults shelf.old) (S.faults shelf.new) result }
{
    match fetch_whole(alloc, shelf, name, most) {
        Ok(Fetched::Whole(bytes)) => Ok(bytes),
        Ok(Fetched::Missing) => Err(Halt::Refused(Refusal::NoFile(name.copy(alloc)?))),
        Ok(Fetched::TooLarge) => Err(Halt::Refused(Refusal::TooLarge(name.copy(alloc)?))),
        Err(FetchError::ShelfFault) => Err(Halt::ShelfFault),
        Err(FetchError::OutOfMemory) => Err(Halt::OutOfMemory),
    }
}
