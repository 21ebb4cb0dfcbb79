//! Packets on a shelf that are scanned.
use byte_lists::Bytes;
use door_outside::ShelfName;
use memory_outside::{CallNumbers, FaultPlan, MemoryShelf};
use offline_reader::scan_packet;
use std::alloc::{AllocError, Global};
use test_cases::{Miss, expect_cases, number_of};

/// A notice, and messages with these counts of blocks, which each take two.
fn packet(alloc: Global, counts: &[u8]) -> Result<Bytes, AllocError> {
    let mut file = Bytes::from_slice(alloc, &[b' '; 128])?;
    for count in counts {
        let mut header = [b' '; 128];
        header[116] = *count;
        file.add(&header)?;
        file.add(b"First line\xE3")?;
        file.add(&[b' '; 117])?;
    }
    Ok(file)
}

/// The name that a word is.
fn name_of(alloc: Global, word: &[u8]) -> Result<ShelfName, Miss> {
    match ShelfName::parse(alloc, word)? {
        Some(name) => Ok(name),
        None => Err(Miss::Words),
    }
}

/// Puts the front of a packet on a shelf.
fn put(alloc: Global, shelf: &mut MemoryShelf, counts: &[u8], length: u32) -> Result<(), Miss> {
    let file = packet(alloc, counts)?;
    let front = file.as_slice().get(..length as usize);
    let name = name_of(alloc, b"BIG")?;
    shelf.put(&name, front.ok_or(Miss::Words)?)?;
    Ok(())
}

/// What a scan finds of a file of at most so many bytes.
fn scan_one(
    alloc: Global,
    shelf: &mut MemoryShelf,
    name: &[u8],
    most: u32,
) -> Result<String, Miss> {
    if most > 1_000_000 {
        return Err(Miss::Words);
    }
    let name = name_of(alloc, name)?;
    let scanned = scan_packet(shelf, &name, most);
    Ok(format!(in alloc; "{scanned:?} ")?)
}

/// Puts the file of a case, and scans those that it names.
fn scan_on(alloc: Global, shelf: &mut MemoryShelf, words: &[Bytes]) -> Result<String, Miss> {
    let [counts, length, most, names @ ..] = words else {
        return Err(Miss::Words);
    };
    let most = number_of(most.as_slice())?;
    put(
        alloc,
        shelf,
        counts.as_slice(),
        number_of(length.as_slice())?,
    )?;
    let mut found = String::new(alloc);
    for name in names {
        found.push_str(scan_one(alloc, shelf, name.as_slice(), most)?.as_str())?;
    }
    found.push_str(format!(in alloc; "starved {}", shelf.starved())?.as_str())?;
    Ok(found)
}

/// A shelf on which the calls of these numbers fail.
fn shelf(alloc: Global, fails: CallNumbers) -> MemoryShelf {
    MemoryShelf::new(alloc, FaultPlan { fails, stop: None })
}

/// On a shelf where no call fails.
fn scan(alloc: Global, words: &[Bytes]) -> Result<String, Miss> {
    scan_on(alloc, &mut shelf(alloc, CallNumbers::new(alloc)), words)
}

/// A case is the counts of a packet's messages, how many bytes the file BIG has of it, how many are taken, and names.
/// What is found are the scans of these files, and how many of the shelf's calls wanted memory.
const SCANS: &str = r#"
2 384 384 BIG => Ok(Count(1)) starved 0
2 384 383 BIG => Ok(TooLarge) starved 0
22 640 640 BIG => Ok(Count(2)) starved 0
22 639 640 BIG => Ok(Fault(Truncated { at: 384 })) starved 0
22 128 640 BIG => Ok(Count(0)) starved 0
22 0 640 BIG => Ok(Fault(Truncated { at: 0 })) starved 0
20 640 640 BIG => Ok(Fault(BadBlocks { at: 384 })) starved 0
02 640 639 BIG => Ok(TooLarge) starved 0
222222222222222222222222222222220 8576 8576 BIG => Ok(Fault(BadBlocks { at: 8320 })) starved 0
222222222222222222222222222222222 8576 8576 BIG X => Ok(Count(33)) Ok(Missing) starved 0
222222222222222222222222222222222 8576 8575 BIG => Ok(TooLarge) starved 0
"#;

#[test]
fn scans_find_messages_or_the_first_fault(rt: HostRuntime) -> Result<(), Miss> {
    expect_cases(rt.alloc(), SCANS, scan)
}

/// On a shelf that gives pieces of at most so many bytes.
fn scan_pieces(alloc: Global, words: &[Bytes], longest: usize) -> Result<String, Miss> {
    let mut shelf = shelf(alloc, CallNumbers::new(alloc));
    shelf.shorten_pieces(longest);
    scan_on(alloc, &mut shelf, words)
}

#[test]
fn scans_find_the_same_in_short_pieces(rt: HostRuntime) -> Result<(), Miss> {
    expect_cases(
        rt.alloc(),
        SCANS,
        |alloc, words| scan_pieces(alloc, words, 1),
    )?;
    expect_cases(
        rt.alloc(),
        SCANS,
        |alloc, words| scan_pieces(alloc, words, 2),
    )?;
    expect_cases(
        rt.alloc(),
        SCANS,
        |alloc, words| scan_pieces(alloc, words, 4095),
    )
}

/// On a shelf where the second call fails.
fn scan_failing(alloc: Global, words: &[Bytes]) -> Result<String, Miss> {
    let mut fails = CallNumbers::new(alloc);
    fails.add(2)?;
    scan_on(alloc, &mut shelf(alloc, fails), words)
}

const FAILING: &str = r#"
2 384 1000 X BIG BIG => Ok(Missing) Err(ShelfFault) Ok(Count(1)) starved 0
"#;

#[test]
fn scans_stop_at_a_missing_file_or_a_fault(rt: HostRuntime) -> Result<(), Miss> {
    expect_cases(rt.alloc(), FAILING, scan_failing)
}
