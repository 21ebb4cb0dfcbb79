//! Files that are fed in pieces. A case is what it asks, and then how many bytes of a file are fed, a cut, how many
//! bytes are fed at most at once before it and behind it, and the blocks. What is found are the events with the places
//! behind them, the end, and the last full block.
use super::{TWO, front_of};
use byte_lists::Bytes;
use qwk_blocks::{BlockReader, Event};
use std::alloc::{AllocError, Global};
use test_cases::{Miss, expect_cases, number_of, words_in};

/// How a file is fed: up to a cut so many bytes at most at once, and then so many.
#[derive(Clone, Copy)]
struct Feeding {
    cut: usize,
    before: usize,
    behind: usize,
}

impl Feeding {
    /// Where the piece ends that begins here.
    fn end(self, at: usize, length: usize) -> usize {
        if at < self.cut {
            self.cut.min(at.saturating_add(self.before))
        } else {
            length.min(at.saturating_add(self.behind))
        }
    }
}

/// Adds an event with the place behind it.
fn add_event(
    alloc: Global,
    found: &mut String,
    at: usize,
    event: Option<Event>,
) -> Result<(), AllocError> {
    if let Some(event) = event {
        found.push_str(format!(in alloc; "{at} {event:?}; ")?.as_str())?;
    }
    Ok(())
}

/// Feeds a short file up to its end or to a fault, and answers the events and the fault.
fn feed(alloc: Global, bytes: &[u8], feeding: Feeding) -> Result<(BlockReader, String), Miss> {
    if bytes.len() > 1000 {
        return Err(Miss::Unreached);
    }
    let mut reader = BlockReader::new();
    let mut found = String::new(alloc);
    let mut at = 0usize;
    for _ in 0..1000 {
        let end = feeding.end(at, bytes.len());
        if end < at || bytes.len() < end {
            return Err(Miss::Unreached);
        }
        match reader.feed(&bytes[at..end]) {
            Ok(fed) => {
                at += fed.used;
                add_event(alloc, &mut found, at, fed.event)?;
            }
            Err(fault) => {
                found.push_str(format!(in alloc; "{fault:?}; ")?.as_str())?;
                break;
            }
        }
    }
    Ok((reader, found))
}

/// What is found of a file that is fed.
fn fed(alloc: Global, bytes: &[u8], feeding: Feeding) -> Result<String, Miss> {
    let (reader, events) = feed(alloc, bytes, feeding)?;
    let block = reader.block().as_slice().escape_ascii();
    Ok(format!(in alloc; "{events}{:?} \"{block}\"", reader.finish())?)
}

/// The four numbers at the front of the words.
fn numbers_of(words: &[Bytes]) -> Result<[u32; 4], Miss> {
    let mut numbers = [0; 4];
    for (number, word) in numbers.iter_mut().zip(words) {
        *number = number_of(word.as_slice())?;
    }
    Ok(numbers)
}

fn feed_file(alloc: Global, words: &[Bytes]) -> Result<String, Miss> {
    let [length, cut, before, behind] = numbers_of(words)?;
    let blocks = words.get(4..).ok_or(Miss::Words)?;
    let file = front_of(alloc, blocks, length)?;
    let feeding = Feeding {
        cut: cut as usize,
        before: before as usize,
        behind: behind as usize,
    };
    fed(alloc, file.as_slice(), feeding)
}

/// Feeds the front of the two messages with each of these cuts. What is found is the same at all, or that of the first
/// cut at which it is another.
fn feed_cuts(alloc: Global, words: &[Bytes]) -> Result<String, Miss> {
    let [length, first, last, most] = numbers_of(words)?;
    let blocks = words_in(alloc, TWO)?;
    let file = front_of(alloc, blocks.as_slice(), length)?;
    let mut found = String::new(alloc);
    for cut in first..=last {
        let feeding = Feeding {
            cut: cut as usize,
            before: most as usize,
            behind: most as usize,
        };
        let next = fed(alloc, file.as_slice(), feeding)?;
        if cut > first && next != found {
            return Ok(format!(in alloc; "cut at {cut}: {next}")?);
        }
        found = next;
    }
    Ok(found)
}

/// What is found of a case, which begins with what it asks.
fn found(alloc: Global, words: &[Bytes]) -> Result<String, Miss> {
    let [asked, words @ ..] = words else {
        return Err(Miss::Words);
    };
    match asked.as_slice() {
        b"file" => feed_file(alloc, words),
        b"cuts" => feed_cuts(alloc, words),
        _ => Err(Miss::Words),
    }
}

const CASES: &str = r#"
# A message byte by byte, the same without its last byte, nothing, and a message with a bad count.
file 384 0 1 1 "Produced by qwkdoor, packet 1"
" 1      09-09-0101:46ALL                      BOB RAY                  Hello                                0       2     \xE1\0\0\x01\0 "
"First line\xE3"
=> 128 Notice; 256 Head { blocks: 2 }; 384 Text { left: 0 }; Ok(1) "First line\xe3                                                                                                                     "
file 383 0 1 1 "Produced by qwkdoor, packet 1"
" 1      09-09-0101:46ALL                      BOB RAY                  Hello                                0       2     \xE1\0\0\x01\0 "
"First line\xE3"
=> 128 Notice; 256 Head { blocks: 2 }; Err(Truncated { at: 128 }) " 1      09-09-0101:46ALL                      BOB RAY                  Hello                                0       2     \xe1\x00\x00\x01\x00 "
file 0 0 1 1 => Err(Truncated { at: 0 }) "\x00\x00\x00\x00\x00\x00\x00\x00\x00\x00\x00\x00\x00\x00\x00\x00\x00\x00\x00\x00\x00\x00\x00\x00\x00\x00\x00\x00\x00\x00\x00\x00\x00\x00\x00\x00\x00\x00\x00\x00\x00\x00\x00\x00\x00\x00\x00\x00\x00\x00\x00\x00\x00\x00\x00\x00\x00\x00\x00\x00\x00\x00\x00\x00\x00\x00\x00\x00\x00\x00\x00\x00\x00\x00\x00\x00\x00\x00\x00\x00\x00\x00\x00\x00\x00\x00\x00\x00\x00\x00\x00\x00\x00\x00\x00\x00\x00\x00\x00\x00\x00\x00\x00\x00\x00\x00\x00\x00\x00\x00\x00\x00\x00\x00\x00\x00\x00\x00\x00\x00\x00\x00\x00\x00\x00\x00\x00\x00"
file 384 255 100 1000 "Produced by qwkdoor, packet 1"
" 1      09-09-0101:46ALL                      BOB RAY                  Hello                                0       0     \xE1\0\0\x01\0 "
"First line\xE3"
=> 128 Notice; BlocksFault { at: 128 }; Err(BadBlocks { at: 128 }) " 1      09-09-0101:46ALL                      BOB RAY                  Hello                                0       0     \xe1\x00\x00\x01\x00 "
# The two messages without their last byte. A case is how many bytes are fed, the first and the last cut, and how many
# bytes are fed at most at once.
cuts 639 0 639 1000
=> 128 Notice; 256 Head { blocks: 2 }; 384 Text { left: 0 }; 512 Head { blocks: 2 }; Err(Truncated { at: 384 }) " 1      09-09-0101:46ALL                      BOB RAY                  Hello                                0       2     \xe1\x00\x00\x01\x00 "
cuts 639 0 0 1
=> 128 Notice; 256 Head { blocks: 2 }; 384 Text { left: 0 }; 512 Head { blocks: 2 }; Err(Truncated { at: 384 }) " 1      09-09-0101:46ALL                      BOB RAY                  Hello                                0       2     \xe1\x00\x00\x01\x00 "
"#;

#[test]
fn files_are_fed(rt: HostRuntime) -> Result<(), Miss> {
    expect_cases(rt.alloc(), CASES, found)
}
