//! Patches, and what says little itself: numbers, outcomes, readers and names.
use super::expect;
use byte_lists::Bytes;
use door_outside::{FileId, ShelfName};
use intent_journal::{Patch, Patches};
use jam_layout::{Reader, Readers};
use memory_outside::CallNumbers;
use netmail_rules::Rule;
use offered_packets::{Offered, OfferedMessage};
use packet_verdicts::{Outcome, Outcomes};
use std::alloc::{AllocError, Global};
use std::test::Fail;

/// The patch of all bytes of file 0.
fn whole(alloc: Global) -> Result<Patch, AllocError> {
    Ok(Patch::Whole {
        file: FileId::ledger(),
        bytes: Bytes::from_slice(alloc, b"all")?,
    })
}

/// The patch of bytes of file 7.
fn put(alloc: Global) -> Result<Patch, AllocError> {
    Ok(Patch::Put {
        file: FileId::jdt(1),
        at: 5,
        bytes: Bytes::from_slice(alloc, b"some")?,
    })
}

fn patches_of(alloc: Global) -> Result<Patches, AllocError> {
    let mut patches = Patches::new(alloc);
    patches.add(whole(alloc)?)?;
    patches.add(put(alloc)?)?;
    Ok(patches)
}

/// Whether a patch is that of all bytes.
fn is_whole(patch: &Patch) -> bool {
    match patch {
        Patch::Whole { file, bytes } => file.number() == 0 && bytes.as_slice() == b"all".as_slice(),
        Patch::Put { .. } => false,
    }
}

/// Whether a patch is the other one.
fn is_put(patch: &Patch) -> bool {
    match patch {
        Patch::Whole { .. } => false,
        Patch::Put { file, at, bytes } => {
            (file.number(), *at) == (7, 5) && bytes.as_slice() == b"some".as_slice()
        }
    }
}

/// Whether patches are these two.
fn are_patches(patches: &Patches) -> bool {
    match patches.as_slice() {
        [first, second] => is_whole(first) && is_put(second),
        _ => false,
    }
}

fn copies_patches(alloc: Global) -> Result<bool, AllocError> {
    let copies = patches_of(alloc)?.copy(alloc)?;
    Ok(are_patches(&copies))
}

fn copies_offered(alloc: Global) -> Result<bool, AllocError> {
    let message = OfferedMessage {
        place: 2,
        number: 7,
    };
    let mut offered = Offered::new(alloc);
    offered.add(message)?;
    let copies = offered.copy(alloc)?;
    Ok(copies.as_slice() == [message].as_slice())
}

fn copies_outcomes(alloc: Global) -> Result<bool, AllocError> {
    let posted = Outcome::Posted {
        conference: 1,
        number: 9,
    };
    let refused = Outcome::Refused(Rule::Conference);
    let mut outcomes = Outcomes::new(alloc);
    outcomes.add(posted)?;
    outcomes.add(refused)?;
    let copies = outcomes.copy(alloc)?;
    Ok(copies.as_slice() == [posted, refused].as_slice())
}

fn copies_calls(alloc: Global) -> Result<bool, AllocError> {
    let mut calls = CallNumbers::new(alloc);
    calls.add(4)?;
    let copies = calls.copy(alloc)?;
    Ok(copies.as_slice() == [4].as_slice())
}

fn readers_of(alloc: Global) -> Result<Readers, AllocError> {
    let name = Bytes::from_slice(alloc, b"Bob Ray")?;
    let mut readers = Readers::new(alloc);
    readers.add(alloc, Reader { id: 2, name })?;
    Ok(readers)
}

/// Whether the first of some readers is Bob Ray, with the id 2.
fn are_readers(readers: &Readers) -> bool {
    match readers.get(0) {
        Some(reader) => reader.id == 2 && reader.name.as_slice() == b"Bob Ray".as_slice(),
        None => false,
    }
}

fn copies_readers(alloc: Global) -> Result<bool, AllocError> {
    let copies = readers_of(alloc)?.copy(alloc)?;
    Ok(are_readers(&copies))
}

fn copies_name(alloc: Global) -> Result<bool, AllocError> {
    let Some(name) = ShelfName::parse(alloc, b"a/b")? else {
        return Ok(false);
    };
    let copy = name.copy(alloc)?;
    Ok(copy.as_slice() == b"a/b".as_slice())
}

/// Whether the copies of what says little itself are what they are of.
fn copies_others(alloc: Global) -> Result<bool, AllocError> {
    let lists = copies_offered(alloc)? && copies_outcomes(alloc)? && copies_calls(alloc)?;
    Ok(lists && copies_readers(alloc)? && copies_name(alloc)?)
}

#[test]
fn patches_and_others_are_copied(rt: HostRuntime) -> Result<(), Fail> {
    expect(copies_patches(rt.alloc())? && copies_others(rt.alloc())?)
}
