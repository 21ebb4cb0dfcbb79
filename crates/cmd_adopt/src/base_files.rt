//! Another tool's base on the shelf.
ghost use Rattle.std.specs.Prelude.{◌≡◌, ◌≤◌, ◌++◌, codes, length, IfOk, IsTrue};
ghost use Rattle.door_outside.specs.Name.{IsShelfName};
ghost use Rattle.shelf_files.specs.Halts.{Comes, ShelfCauses};
ghost use Rattle.shelf_files.specs.ShelfFile.{foreign_limit};
ghost use Rattle.cmd_adopt.specs.Adopting.{AreRight};
ghost use Rattle.cmd_adopt.specs.BaseFiles.{base_of, ending_of, foreign_halt};

use byte_lists::Bytes;
use door_outside::{Shelf, ShelfName};
use jam_adopt::{Foreign, ForeignError, read_foreign};
use shelf_files::{FOREIGN_LIMIT, Halt, Refusal, file_in};
use std::alloc::{AllocError, Global};

/// The shelf name that a prefix and an ending make together.
fn name_of(alloc: Global, prefix: &[u8], ending: &[u8]) -> Result<ShelfName, AllocError>
    requires { IsShelfName (prefix.now ++ ending.now) }
    ensures { IfOk result (λ name. name ≡ prefix.now ++ ending.now) }
{
    let mut text = Bytes::from_slice(alloc, prefix)?;
    text.add(ending)?;
    match ShelfName::parse(alloc, text.as_slice())? {
        Some(name) => Ok(name),
        None => unreachable!(),
    }
}

/// The file of a base with this ending, refused where it isn't there or is too long.
fn ending_in<S: Shelf>(
    alloc: Global,
    shelf: &mut S,
    prefix: &[u8],
    ending: &[u8],
) -> Result<Bytes, Halt>
    requires { IsShelfName (prefix.now ++ ending.now) }
    ensures file { IsTrue S.tells → Comes result (λ read. read ≡ ending_of (S.files shelf.old) prefix.now ending.now) }
    ensures short { IfOk result (λ bytes. length bytes ≤ foreign_limit) }
    ensures unchanged { IsTrue S.tells → S.files shelf.new ≡ S.files shelf.old }
    ensures causes { ShelfCauses (S.faults shelf.old) (S.faults shelf.new) result }
{
    let name = name_of(alloc, prefix, ending)?;
    file_in(alloc, shelf, &name, FOREIGN_LIMIT)
}

/// Why a command stops where a base can't be read.
fn halt_of(error: ForeignError) -> Halt
    ensures { result ≡ foreign_halt error }
{
    match error {
        ForeignError::Short => Halt::Refused(Refusal::ForeignShort),
        ForeignError::Signature => Halt::Refused(Refusal::ForeignSignature),
        ForeignError::OutOfMemory => Halt::OutOfMemory,
    }
}

/// What the records of the base of a prefix come to, in the order of its .JDX. It is refused where one of its files
/// isn't there or is too long: .JHR first, then .JDX, then .JDT. Then it is refused where .JHR is no base header.
pub(crate) fn base_in<S: Shelf>(
    alloc: Global,
    shelf: &mut S,
    prefix: &[u8],
) -> Result<Foreign, Halt>
    requires { IsShelfName (prefix.now ++ codes ".JHR") }
    ensures base { IsTrue S.tells → Comes result (λ read. read ≡ base_of (S.files shelf.old) prefix.now) }
    ensures right { IfOk result AreRight }
    ensures unchanged { IsTrue S.tells → S.files shelf.new ≡ S.files shelf.old }
    ensures causes { ShelfCauses (S.faults shelf.old) (S.faults shelf.new) result }
{
    let jhr = ending_in(alloc, shelf, prefix, b".JHR")?;
    let jdx = ending_in(alloc, shelf, prefix, b".JDX")?;
    let jdt = ending_in(alloc, shelf, prefix, b".JDT")?;
    match read_foreign(alloc, jhr.as_slice(), jdt.as_slice(), jdx.as_slice()) {
        Ok(found) => Ok(found),
        Err(error) => Err(halt_of(error)),
    }
}
