//! The names of a shelf's files, and the names and numbers of a host's.
use super::examples::{Example, Miss, answered, is_number, parted, play, says};
use door_outside::{FileId, ShelfName};
use folder_hosts::{data_path, file_number};
use std::alloc::{AllocError, Global};
use std::test::Fail;

/// Texts, and the names that they are.
const PARSED: &str = "\
parse out = out
parse a/b/c/MESSAGES.DAT = a/b/c/MESSAGES.DAT
parse 12345678901234567890123456789012 = 12345678901234567890123456789012
parse a-b_c.d = a-b_c.d
parse = none
parse a/b/c/d/e = none
parse 123456789012345678901234567890123 = none
parse .hidden = none
parse a//b = none
parse a/ = none
parse /a = none
parse a/.b = none
parse a b = none
";

/// Folders, and files in them.
const JOINED: &str = "\
folder a/b/c = yes
join a/b/c CONTROL.DAT = a/b/c/CONTROL.DAT
folder a/b/c/CONTROL.DAT = no
join a/b/c/CONTROL.DAT x = none
join a/b/c .x = none
";

/// Files, and their numbers.
const NUMBERS: &str = "\
number 257 = 257
number 258 = none
ledger = 0
journal = 1
jhr 0 = 2
jdt 63 = 255
jdx 63 = 256
jlr 63 = 257
";

/// Names in a folder, and the numbers of the files that they are.
const NAMED: &str = "\
named LEDGER.DAT = 0
named journal.dat = 1
named C00.JHR = 2
named c00.jdt = 3
named C01.JDX = 8
named C63.JLR = 257
named C64.JHR = none
named C1.JHR = none
named C001.JHR = none
named C00.JHRX = none
named C00.JH = none
named LEDGER = none
named LOCK = none
named = none
";

#[derive(Drop)]
struct Named;

#[derive(Drop)]
struct Names {
    alloc: Global,
}

#[derive(Drop)]
struct Numbers;

/// Whether an answer is the name that was found.
fn is_name(found: &Option<ShelfName>, answer: &str) -> bool {
    match found {
        Some(name) => name.as_slice() == answer.as_bytes(),
        None => answer == "none",
    }
}

fn parse(alloc: Global, text: &str) -> Option<Option<ShelfName>> {
    ShelfName::parse(alloc, text.as_bytes()).ok()
}

/// Joins a folder's name and a part.
fn join(alloc: Global, words: &str) -> Option<Option<ShelfName>> {
    let (folder, part) = parted(words);
    let folder = parse(alloc, folder)??;
    folder.join(alloc, part.as_bytes()).ok()
}

impl Example for Names {
    fn is_so(&mut self, line: &str) -> Option<bool> {
        let (call, answer) = answered(line);
        let (verb, words) = parted(call);
        match verb {
            "parse" => Some(is_name(&parse(self.alloc, words)?, answer)),
            "join" => Some(is_name(&join(self.alloc, words)?, answer)),
            "folder" => Some(says(parse(self.alloc, words)??.is_folder(), answer)),
            _ => None,
        }
    }
}

/// The file of a conference in a place.
fn file_of_place(kind: &str, place: &str) -> Option<FileId> {
    let place = place.parse::<u8>().ok()?;
    if place >= 64 {
        return None;
    }
    match kind {
        "jhr" => Some(FileId::jhr(place)),
        "jdt" => Some(FileId::jdt(place)),
        "jdx" => Some(FileId::jdx(place)),
        "jlr" => Some(FileId::jlr(place)),
        _ => None,
    }
}

/// The file of some words.
fn file_of(words: &str) -> Option<FileId> {
    let (kind, number) = parted(words);
    match kind {
        "ledger" => Some(FileId::ledger()),
        "journal" => Some(FileId::journal()),
        "number" => FileId::new(number.parse::<u16>().ok()?),
        _ => file_of_place(kind, number),
    }
}

impl Example for Numbers {
    fn is_so(&mut self, line: &str) -> Option<bool> {
        let (call, answer) = answered(line);
        match file_of(call) {
            Some(file) => Some(is_number(u64::from(file.number()), answer)),
            None => Some(answer == "none"),
        }
    }
}

impl Example for Named {
    fn is_so(&mut self, line: &str) -> Option<bool> {
        let (call, answer) = answered(line);
        let (_, name) = parted(call);
        match file_number(name.as_bytes()) {
            Some(number) => Some(is_number(number as u64, answer)),
            None => Some(answer == "none"),
        }
    }
}

#[test]
fn names_and_files_follow_their_rules(rt: HostRuntime) -> Result<(), Miss> {
    let mut names = Names { alloc: rt.alloc() };
    play(&mut names, PARSED, 0)?;
    play(&mut names, JOINED, 0)?;
    play(&mut Numbers, NUMBERS, 0)?;
    play(&mut Named, NAMED, 0)
}

/// Whether each file's name has the file's number.
fn are_numbered(alloc: Global) -> Result<bool, AllocError> {
    for number in 0..258u16 {
        let path = data_path(alloc, "", number)?;
        let Some(name) = path.as_str().strip_prefix('/') else {
            return Ok(false);
        };
        if file_number(name.as_bytes()) != Some(usize::from(number)) {
            return Ok(false);
        }
    }
    Ok(true)
}

#[test]
fn each_name_has_its_number(rt: HostRuntime) -> Result<(), Fail> {
    assert!(rt; are_numbered(rt.alloc())?);
    Ok(())
}
