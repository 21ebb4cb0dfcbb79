//! A shelf in a real folder, beside one in memory.
use super::examples::{answered, ends, numbered, parted};
use super::folders::{expect, holds};
use door_outside::{Piece, Shelf, ShelfName};
use folder_hosts::FolderShelf;
use memory_outside::{CallNumbers, FaultPlan, MemoryShelf};
use std::alloc::Global;
use std::fs;
use std::test::Fail;

/// The calls of a shelf that is empty, and what each answers: the same in a real folder and in memory. `piece` reads into
/// 4 dashes from a place on: how many bytes came, and what stands there then.
const SHELVED: &str = "\
piece out/a/CONTROL.DAT 0 = missing
begin out/a/CONTROL.DAT
piece out/a/CONTROL.DAT 0 = 0 ----
append out/a/CONTROL.DAT abc
append out/a/CONTROL.DAT def
append out/text xyz
piece out/a/CONTROL.DAT 0 = 4 abcd
piece out/a/CONTROL.DAT 4 = 2 ef--
piece out/a/CONTROL.DAT 9 = 0 ----
piece out/text 2 = 1 z---
begin out/a/CONTROL.DAT
piece out/a/CONTROL.DAT 4 = 0 ----
";

/// The calls behind these that a folder can't carry out: on a folder, and below a file.
const REFUSED: &str = "\
piece out/a 0 = fault
begin out/a = fault
append out/a x = fault
piece out/text/below 0 = fault
begin out/text/below = fault
append out/text/below x = fault
";

/// Whether an answer says that so many bytes came, and what stands in a buffer.
fn is_piece(count: usize, buf: &[u8; 4], answer: &str) -> bool {
    match numbered(answer) {
        Some((wanted, left)) => count == wanted as usize && buf.as_slice() == left.as_bytes(),
        None => false,
    }
}

fn piece<S: Shelf>(shelf: &mut S, name: &ShelfName, at: &str, answer: &str) -> Option<bool> {
    let at = at.parse::<u16>().ok()?;
    let mut buf = [b'-'; 4];
    match shelf.piece(name, u32::from(at), &mut buf) {
        Ok(Piece::Missing) => Some(answer == "missing"),
        Ok(Piece::Count(count)) => Some(is_piece(count, &buf, answer)),
        Err(_) => Some(answer == "fault"),
    }
}

/// Whether a line on a file is so.
fn call_is_so<S: Shelf>(
    shelf: &mut S,
    name: &ShelfName,
    verb: &str,
    words: &str,
    answer: &str,
) -> Option<bool> {
    match verb {
        "begin" => Some(ends(shelf.begin(name).is_ok(), answer)),
        "append" => Some(ends(shelf.append(name, words.as_bytes()).is_ok(), answer)),
        "piece" => piece(shelf, name, words, answer),
        _ => None,
    }
}

/// Whether a line is so.
fn is_so<S: Shelf>(alloc: Global, shelf: &mut S, line: &str) -> Option<bool> {
    let (call, answer) = answered(line);
    let (verb, words) = parted(call);
    let (name, words) = parted(words);
    let name = ShelfName::parse(alloc, name.as_bytes()).ok()??;
    call_is_so(shelf, &name, verb, words, answer)
}

/// Carries out the calls of an example.
fn use_shelf<S: Shelf>(alloc: Global, shelf: &mut S, text: &'static str) -> Result<(), Fail> {
    for line in text.lines() {
        let Some(true) = is_so(alloc, shelf, line) else {
            return Err(Fail::from(line));
        };
    }
    Ok(())
}

#[test]
fn a_shelf_in_memory_is_used(rt: HostRuntime) -> Result<(), Fail> {
    let fails = CallNumbers::new(rt.alloc());
    let mut shelf = MemoryShelf::new(rt.alloc(), FaultPlan { fails, stop: None });
    use_shelf(rt.alloc(), &mut shelf, SHELVED)
}

/// Uses a shelf in a folder that isn't there.
fn use_folder(rt: HostRuntime, folder: &str) -> Result<(), Fail> {
    let mut shelf = FolderShelf::new(rt, "qwkdoor_test_no_data", folder)?;
    use_shelf(rt.alloc(), &mut shelf, SHELVED)?;
    use_shelf(rt.alloc(), &mut shelf, REFUSED)
}

#[test]
fn shelf_files_lie_at_their_names(rt: HostRuntime) -> Result<(), Fail> {
    let folder = "qwkdoor_test_shelf";
    let _ = fs::remove_dir_all(&rt, folder);
    use_folder(rt, folder)?;
    let text = "qwkdoor_test_shelf/out/text";
    expect(holds(&rt, text, b"xyz")?, text)?;
    fs::remove_dir_all(&rt, folder)?;
    Ok(())
}

/// Calls on a file of the board, which has another name on the shelf: it may be read, and isn't written.
const OWN: &str = "\
piece own 0 = 4 text
begin own = fault
append own x = fault
piece own 0 = 4 text
begin new
append new x
";

/// Makes a board of one file, and a shelf on which that has another name.
fn make_own(rt: &HostRuntime, data: &str) -> Result<(), Fail> {
    fs::create_dir_all(rt, data)?;
    fs::create_dir_all(rt, "qwkdoor_test_own/shelf")?;
    let file = "qwkdoor_test_own/data/C00.JDT";
    fs::write(rt, file, b"text")?;
    fs::hard_link(rt, file, "qwkdoor_test_own/shelf/own")?;
    Ok(())
}

#[test]
fn a_file_of_the_board_is_not_written(rt: HostRuntime) -> Result<(), Fail> {
    let (top, data) = ("qwkdoor_test_own", "qwkdoor_test_own/data");
    let _ = fs::remove_dir_all(&rt, top);
    make_own(&rt, data)?;
    let mut shelf = FolderShelf::new(rt, data, "qwkdoor_test_own/shelf")?;
    use_shelf(rt.alloc(), &mut shelf, OWN)?;
    let file = "qwkdoor_test_own/data/C00.JDT";
    expect(holds(&rt, file, b"text")?, file)?;
    fs::remove_dir_all(&rt, top)?;
    Ok(())
}
