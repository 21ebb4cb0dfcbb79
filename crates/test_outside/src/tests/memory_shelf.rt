//! A shelf in memory: what its calls do.
use super::examples::{Example, Miss, answered, ends, expect, is_number, parted, play};
use super::memory_host::plan;
use byte_lists::Bytes;
use door_outside::{Fetched, Piece, Shelf, ShelfName, fetch_whole};
use memory_outside::{FaultPlan, MemoryShelf};
use std::alloc::Global;

const APPENDED: &str = "\
append out/a first
fetch out/a = first
append out/a , second
get out/a = first, second
begin out/a
get out/a
";

/// The first, the third, the fifth and all further calls fail.
const FAILED: &str = "\
piece a = fault
piece a = missing
append a lost = fault
append a kept
begin a = fault
begin a = fault
get a = kept
starved = 0
";

/// A shelf, and the memory for names and files.
#[derive(Drop)]
struct Shelved {
    alloc: Global,
    shelf: MemoryShelf,
}

/// Whether the file of that name has these bytes.
fn keeps(shelf: &MemoryShelf, name: &ShelfName, answer: &str) -> bool {
    match shelf.get(name) {
        Some(kept) => kept == answer.as_bytes(),
        None => false,
    }
}

/// Whether the whole file is fetched, where a file of 5 bytes is taken.
fn fetches(alloc: Global, shelf: &mut MemoryShelf, name: &ShelfName, answer: &str) -> Option<bool> {
    match fetch_whole(alloc, shelf, name, 5).ok()? {
        Fetched::Whole(whole) => Some(whole.as_slice() == answer.as_bytes()),
        _ => Some(false),
    }
}

/// Whether a piece of one byte is found so.
fn gives(shelf: &mut MemoryShelf, name: &ShelfName, answer: &str) -> bool {
    let mut buf = [0; 1];
    match shelf.piece(name, 0, &mut buf) {
        Ok(Piece::Missing) => answer == "missing",
        Ok(Piece::Count(count)) => is_number(count as u64, answer),
        Err(_) => answer == "fault",
    }
}

/// Whether a line on a file is so.
fn file_is_so(
    stage: &mut Shelved,
    name: &ShelfName,
    verb: &str,
    words: &str,
    answer: &str,
) -> Option<bool> {
    let shelf = &mut stage.shelf;
    match verb {
        "append" => Some(ends(shelf.append(name, words.as_bytes()).is_ok(), answer)),
        "begin" => Some(ends(shelf.begin(name).is_ok(), answer)),
        "get" => Some(keeps(shelf, name, answer)),
        "fetch" => fetches(stage.alloc, shelf, name, answer),
        "piece" => Some(gives(shelf, name, answer)),
        _ => None,
    }
}

impl Example for Shelved {
    fn is_so(&mut self, line: &str) -> Option<bool> {
        let (call, answer) = answered(line);
        let (verb, words) = parted(call);
        if verb == "starved" {
            return Some(is_number(self.shelf.starved(), answer));
        }
        let (name, words) = parted(words);
        let name = ShelfName::parse(self.alloc, name.as_bytes()).ok()??;
        file_is_so(self, &name, verb, words, answer)
    }
}

/// Plays an example on an empty shelf.
fn play_on(alloc: Global, plan: FaultPlan, text: &'static str) -> Result<(), Miss> {
    let shelf = MemoryShelf::new(alloc, plan);
    play(&mut Shelved { alloc, shelf }, text, 0)
}

#[test]
fn a_shelf_keeps_what_was_appended(rt: HostRuntime) -> Result<(), Miss> {
    play_on(rt.alloc(), plan(rt.alloc(), &[], None)?, APPENDED)
}

#[test]
fn calls_of_a_shelf_fail_by_plan(rt: HostRuntime) -> Result<(), Miss> {
    play_on(rt.alloc(), plan(rt.alloc(), &[1, 3], Some(5))?, FAILED)
}

/// A file of so many bytes, each unlike its neighbours.
fn long_file(alloc: Global, length: u32) -> Option<Bytes> {
    let mut file = Bytes::new(alloc);
    for place in 0..length {
        file.add(&[(place % 251) as u8]).ok()?;
    }
    Some(file)
}

/// Whether a file of 5,000 bytes is fetched whole, is too large for one byte fewer, and another is missing.
fn fetches_long(alloc: Global, shelf: &mut MemoryShelf) -> Option<bool> {
    let there = ShelfName::parse(alloc, b"there").ok()??;
    let missing = ShelfName::parse(alloc, b"missing").ok()??;
    let file = long_file(alloc, 5000)?;
    shelf.put(&there, file.as_slice()).ok()?;
    let whole = match fetch_whole(alloc, shelf, &there, 5000).ok()? {
        Fetched::Whole(whole) => whole.as_slice() == file.as_slice(),
        _ => false,
    };
    let large = matches!(
        fetch_whole(alloc, shelf, &there, 4999).ok()?,
        Fetched::TooLarge
    );
    let none = matches!(
        fetch_whole(alloc, shelf, &missing, 5000).ok()?,
        Fetched::Missing
    );
    Some(whole && large && none)
}

#[test]
fn a_file_is_fetched_in_short_pieces(rt: HostRuntime) -> Result<(), Miss> {
    for longest in [1u32, 2, 4095] {
        let mut shelf = MemoryShelf::new(rt.alloc(), plan(rt.alloc(), &[], None)?);
        shelf.shorten_pieces(longest as usize);
        let fetched = fetches_long(rt.alloc(), &mut shelf);
        expect(fetched, "pieces of at most so many bytes", longest)?;
    }
    Ok(())
}
