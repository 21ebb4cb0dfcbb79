// The last-read pointers of a conference.
ghost use Rattle.std.specs.Prelude.{◌≡◌, ◌<◌, length, replicate, slice_set, IfOk};
ghost use Rattle.jam_base.specs.MarkPuts.{pointer_patch as pointer_patch_of, record_patch as record_patch_of};

use crate::base::Base;
use crate::numbers::two_numbers;
use intent_journal::{FileId, Patch};
use jam_records::{Bytes, List};
use jam_threads::SharedList;
use std::alloc::{AllocError, Global};

/// How many readers have records that end below 2^31, as a patch does.
const PUT_LIMIT: usize = 0x7FF_FFFF;

/// So many pointers, each 0.
pub fn no_pointers(alloc: Global, count: usize) -> Result<List<u32>, AllocError>
    ensures { IfOk result (λ pointers. pointers ≡ replicate count 0) }
{
    let mut pointers = List::new(alloc);
    pointers.fill(alloc, &0, count)?;
    Ok(pointers)
}

/// The pointers with the one in a place, from 0, at a message number.
pub fn moved(
    alloc: Global,
    pointers: &SharedList<u32>,
    place: usize,
    number: u32,
) -> Result<SharedList<u32>, AllocError>
    requires { place < length pointers.now }
    ensures { IfOk result (λ new. new ≡ slice_set pointers.now place number) }
{
    let mut copy = pointers.copy(alloc)?;
    copy.set(alloc, place, number)?;
    Ok(copy)
}

/// The patch of these bytes, which stand from a place on in the record of the reader in a place of this base, both
/// from 0.
pub fn record_patch(
    alloc: Global,
    base: &Base,
    reader: usize,
    at: u32,
    bytes: &[u8],
) -> Result<Patch, AllocError>
    requires { at < 16 }
    ensures { IfOk result (λ patch. patch ≡ record_patch_of base.now reader at bytes.now) }
{
    let file = FileId::jlr(base.place());
    if reader >= PUT_LIMIT {
        let bytes = base.jlr(alloc)?;
        return Ok(Patch::Whole { file, bytes });
    }
    let bytes = Bytes::from_slice(alloc, bytes)?;
    let at = 16 * reader as u32 + at;
    Ok(Patch::Put { file, at, bytes })
}

/// The patch that moves the pointer of the reader in a place, from 0, to a number, at which it is in this base.
pub fn pointer_patch(
    alloc: Global,
    base: &Base,
    reader: usize,
    number: u32,
) -> Result<Patch, AllocError>
    ensures { IfOk result (λ patch. patch ≡ pointer_patch_of base.now reader number) }
{
    record_patch(alloc, base, reader, 8, &two_numbers(number, number))
}
