ghost use Rattle.std.specs.Prelude.{◌≡◌, ◌<◌, ◌≤◌, ◌^◌, length, IfOk, OnOk, IsErrOf, IsTrue};
ghost use Rattle.door_outside.specs.Cause.{Rose};
ghost use Rattle.door_outside.specs.Shelf.{held, fetched, FetchedWithin};

use crate::allowance::Allowance;
use crate::fault::ShelfFault;
use crate::name::ShelfName;
use crate::shelf::{Piece, Shelf};
use byte_lists::Bytes;
use std::alloc::{AllocError, Global};
use thiserror::Error;

/// How many bytes are asked for at once.
const PIECE: usize = 65536;

/// What a fetch found.
#[derive(Debug, Drop)]
pub enum Fetched {
    /// The shelf has no file of that name.
    Missing,
    /// The file has more bytes than the caller takes.
    TooLarge,
    /// The whole file.
    Whole(Bytes),
}

/// Why a fetch failed.
#[derive(Clone, Copy, Debug, PartialEq, Eq, Error)]
pub enum FetchError {
    /// A call of the shelf failed.
    #[error("shelf fault")]
    ShelfFault,
    /// There is no memory for the file.
    #[error("out of memory")]
    OutOfMemory,
}

impl From<ShelfFault> for FetchError {
    ghost use Rattle.std.specs.Prelude.{◌≡◌};
    ghost use Rattle.door_outside.specs.declared.fetch.FetchError.TheVariants.{ShelfFault};

    ghost from_gives = { λ _ e. e ≡ ShelfFault };

    fn from(_fault: ShelfFault) -> FetchError {
        FetchError::ShelfFault
    }
}

impl From<AllocError> for FetchError {
    ghost use Rattle.std.specs.Prelude.{◌≡◌};
    ghost use Rattle.door_outside.specs.declared.fetch.FetchError.TheVariants.{OutOfMemory};

    ghost from_gives = { λ _ e. e ≡ OutOfMemory };

    fn from(_error: AllocError) -> FetchError {
        FetchError::OutOfMemory
    }
}

/// The whole file of that name, where it has at most `max` bytes, read by pieces into the room.
fn fetch_by<S: Shelf>(
    alloc: Global,
    shelf: &mut S,
    name: &ShelfName,
    max: u32,
    room: &mut [u8],
) -> Result<Fetched, FetchError>
    requires max { max < 2 ^ 31 }
    requires room { 0 < length room.old }
    ensures value { IsTrue S.tells → IfOk result (λ found. found ≡ fetched max (held (S.files shelf.old) name.now)) }
    ensures within { IfOk result (λ found. FetchedWithin max found) }
    ensures unchanged { IsTrue S.tells → S.files shelf.new ≡ S.files shelf.old }
    ensures later { S.faults shelf.old ≤ S.faults shelf.new }
    ensures cause { IsErrOf result FetchError.ShelfFault → Rose (S.faults shelf.old) (S.faults shelf.new) }
    ensures kept { OnOk result (S.faults shelf.new ≡ S.faults shelf.old) }
    ensures starved { IsErrOf result FetchError.OutOfMemory → S.faults shelf.new ≡ S.faults shelf.old }
{
    let mut allowance = Allowance::new(max + 1);
    let mut whole = Bytes::new(alloc);
    while allowance.left() > 0 {
        let wanted = allowance.left().min(room.len());
        match allowance.ask(shelf, name, &mut room[..wanted])? {
            Piece::Missing => return Ok(Fetched::Missing),
            Piece::Count(0) => return Ok(Fetched::Whole(whole)),
            Piece::Count(count) => whole.add(&room[..count])?,
        }
    }
    Ok(Fetched::TooLarge)
}

/// The whole file of that name, where it has at most `max` bytes. It asks for `max` + 1 bytes at most.
///
/// `ShelfFault` comes only where the shelf's count of faults rose. `OutOfMemory` comes where there is no
/// memory for the file. It hides no fault: it leaves the count as it was, as an answer does.
pub fn fetch_whole<S: Shelf>(
    alloc: Global,
    shelf: &mut S,
    name: &ShelfName,
    max: u32,
) -> Result<Fetched, FetchError>
    requires { max < 2 ^ 31 }
    ensures value { IsTrue S.tells → IfOk result (λ found. found ≡ fetched max (held (S.files shelf.old) name.now)) }
    ensures within { IfOk result (λ found. FetchedWithin max found) }
    ensures unchanged { IsTrue S.tells → S.files shelf.new ≡ S.files shelf.old }
    ensures later { S.faults shelf.old ≤ S.faults shelf.new }
    ensures cause { IsErrOf result FetchError.ShelfFault → Rose (S.faults shelf.old) (S.faults shelf.new) }
    ensures kept { OnOk result (S.faults shelf.new ≡ S.faults shelf.old) }
    ensures starved { IsErrOf result FetchError.OutOfMemory → S.faults shelf.new ≡ S.faults shelf.old }
{
    // On the heap, since a stack may be small.
    let mut room = vec![in alloc; 0u8; PIECE]?;
    fetch_by(alloc, shelf, name, max, &mut room)
}
