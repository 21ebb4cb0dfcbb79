//! What a commit puts into the journal, and what a recovery makes of it.
use super::examples::{Example, Miss, answered, ends, is_number, numbered, parted, play, says};
use super::small_host::SmallHost;
use byte_lists::Bytes;
use door_outside::{FileId, Host};
use intent_journal::{Intent, Patch, commit, recover};
use std::alloc::Global;

/// The intent of 01 00 00 00 as all bytes of file 2, the .JHR of place 0, and its journal while it is open.
const WHOLE: &str = "\
add whole 2 \x01\0\0\0
size = 28
commit
open = OQDJ1\x01\0\0\0\x0F\0\0\0\0\x02\0\0\0\0\0\x04\0\0\0\x01\0\0\0
shut = yes
file 2 = \x01\0\0\0
";

/// The intent of the same bytes at 8 in that file, and its journal while it is open.
const PUT: &str = "\
add put 2 8 \x01\0\0\0
size = 28
write 2 \x07\x07\x07\x07\x07\x07\x07\x07\x07\x07
commit
open = OQDJ1\x01\0\0\0\x0F\0\0\0\x01\x02\0\x08\0\0\0\x04\0\0\0\x01\0\0\0
file 2 = \x07\x07\x07\x07\x07\x07\x07\x07\x01\0\0\0
";

/// Four patches of two files, of which each is synced once.
const SYNCED: &str = "\
write 2 \x07\x07
add put 2 0 \x01
add whole 3 \x03\x04
add put 2 1 \x02
add put 2 2 \x05
commit
syncs = 2
file 2 = \x01\x02\x05
file 3 = \x03\x04
";

/// Puts are taken beside puts, up to the longest file.
const BESIDE_PUT: &str = "\
add put 2 8 \x01\0\0\0
takes put 2 2147483646 \x01 = yes
takes put 2 2147483647 \x01 = no
takes whole 2 = no
";

/// A whole file is taken once, and the journal never.
const BESIDE_WHOLE: &str = "\
add whole 2 \x01\0\0\0
takes put 2 2147483646 \x01 = no
takes whole 0 = yes
takes whole 1 = no
takes whole 2 = no
takes whole 257 = yes
";

/// A byte of the open journal of `WHOLE`, what it becomes and how many bytes there are, and then the first byte of file
/// 2 after a recovery, which was 7.
const RECOVERED: &str = "\
recover 0 79 28 = 1
recover 0 79 27 = 7
recover 0 67 28 = 7
recover 1 82 28 = 7
recover 5 2 28 = 7
recover 9 14 28 = 7
recover 13 1 28 = 1
recover 13 2 28 = 7
recover 14 1 28 = 7
";

/// The same on a host whose journal is too long to have a length, and on one whose reads of more than 13 bytes lose 4:
/// bytes that didn't come aren't zeros.
const RECOVERED_SO: &str = "\
long 0 67 28 = 7
long 0 79 27 = 7
long 0 79 28 = 1
short 0 79 28 = 7
";

/// The same journals, and how many bytes a recovery reads of them: the gate, the header, the last byte and the text.
const READ: &str = "\
reads 0 67 0 = 0
reads 0 67 28 = 1
reads 0 79 1 = 2
reads 0 79 27 = 14
reads 0 79 28 = 30
reads 1 82 28 = 14
reads 12 128 28 = 14
";

/// The open journal of `WHOLE`.
const OPEN: [u8; 28] = *b"OQDJ1\x01\0\0\0\x0F\0\0\0\0\x02\0\0\0\0\0\x04\0\0\0\x01\0\0\0";

/// A host, and an intent that is made for it.
#[derive(Drop)]
struct Journal {
    alloc: Global,
    host: SmallHost,
    intent: Intent,
}

/// The patch of all bytes of a file.
fn whole(alloc: Global, file: FileId, text: &str) -> Option<Patch> {
    let bytes = Bytes::from_slice(alloc, text.as_bytes()).ok()?;
    Some(Patch::Whole { file, bytes })
}

/// The patch of bytes at a place of a file.
fn put(alloc: Global, file: FileId, words: &str) -> Option<Patch> {
    let (at, text) = numbered(words)?;
    let bytes = Bytes::from_slice(alloc, text.as_bytes()).ok()?;
    Some(Patch::Put { file, at, bytes })
}

/// The file of a number.
fn file_of(number: u32) -> Option<FileId> {
    FileId::new(u16::try_from(number).ok()?)
}

/// The patch that words name.
fn patch_of(alloc: Global, words: &str) -> Option<Patch> {
    let (kind, words) = parted(words);
    let (number, words) = numbered(words)?;
    let file = file_of(number)?;
    match kind {
        "whole" => whole(alloc, file, words),
        "put" => put(alloc, file, words),
        _ => None,
    }
}

/// Adds a patch to an intent that takes it.
fn add(intent: &mut Intent, patch: Patch) -> bool {
    intent.takes(&patch) && intent.add(patch).is_ok()
}

fn write(host: &mut SmallHost, words: &str) -> Option<bool> {
    let (number, text) = numbered(words)?;
    let file = file_of(number)?;
    let bytes = text.as_bytes();
    if bytes.len() > 64 {
        return None;
    }
    Some(host.write_at(file, 0, bytes).is_ok())
}

/// The open journal with one byte changed, as words say it, and what is to be left of it.
fn damaged(words: &str) -> Option<([u8; 28], usize)> {
    let (place, words) = numbered(words)?;
    let (byte, len) = numbered(words)?;
    let mut bytes = OPEN;
    if let Some(old) = bytes.get_mut(place as usize) {
        *old = u8::try_from(byte).ok()?;
    }
    Some((bytes, len.parse::<usize>().ok()?))
}

/// Whether a recovery over such a journal is done, shuts the gate, and leaves this as the first byte of file 2.
fn recovers(alloc: Global, mut host: SmallHost, words: &str, answer: &str) -> Option<bool> {
    let (bytes, len) = damaged(words)?;
    let journal = &bytes[..bytes.len().min(len)];
    host.write_at(FileId::journal(), 0, journal).ok()?;
    host.write_at(FileId::jhr(0), 0, &[7; 6]).ok()?;
    recover(alloc, &mut host).ok()?;
    let first = u64::from(*host.content(FileId::jhr(0))?.first()?);
    Some(is_number(first, answer) && is_shut(&host))
}

/// Whether a recovery over such a journal is done, and reads so many bytes.
fn reads(alloc: Global, words: &str, answer: &str) -> Option<bool> {
    let (bytes, len) = damaged(words)?;
    let mut host = SmallHost::new();
    let journal = &bytes[..bytes.len().min(len)];
    host.write_at(FileId::journal(), 0, journal).ok()?;
    recover(alloc, &mut host).ok()?;
    Some(is_number(host.read(), answer))
}

/// Whether the gate of a host is shut.
fn is_shut(host: &SmallHost) -> bool {
    match host.content(FileId::journal()) {
        Some(journal) => journal.starts_with(b"C"),
        None => false,
    }
}

/// Whether the file of a number has these bytes.
fn has(host: &SmallHost, number: &str, answer: &str) -> Option<bool> {
    let file = FileId::new(number.parse::<u16>().ok()?)?;
    Some(host.content(file)? == answer.as_bytes())
}

/// Whether a line on the host is so.
fn host_is_so(journal: &mut Journal, verb: &str, words: &str, answer: &str) -> Option<bool> {
    let host = &mut journal.host;
    match verb {
        "write" => write(host, words),
        "commit" => Some(ends(commit(host, &journal.intent).is_ok(), answer)),
        "open" => Some(host.open_journal().starts_with(answer.as_bytes())),
        "shut" => Some(says(is_shut(host), answer)),
        "file" => has(host, words, answer),
        "syncs" => Some(is_number(host.synced(), answer)),
        "recover" => recovers(journal.alloc, SmallHost::new(), words, answer),
        "long" => recovers(journal.alloc, SmallHost::long(), words, answer),
        "short" => recovers(journal.alloc, SmallHost::losing(4), words, answer),
        "reads" => reads(journal.alloc, words, answer),
        _ => None,
    }
}

impl Example for Journal {
    fn is_so(&mut self, line: &str) -> Option<bool> {
        let (call, answer) = answered(line);
        let (verb, words) = parted(call);
        match verb {
            "add" => Some(add(&mut self.intent, patch_of(self.alloc, words)?)),
            "takes" => Some(says(self.intent.takes(&patch_of(self.alloc, words)?), answer)),
            "size" => Some(is_number(self.intent.size(), answer)),
            _ => host_is_so(self, verb, words, answer),
        }
    }
}

/// Plays an example on an empty host, with an intent of no patches.
fn play_on(alloc: Global, text: &'static str) -> Result<(), Miss> {
    play_with(alloc, SmallHost::new(), text)
}

/// Plays an example on a host, with an intent of no patches.
fn play_with(alloc: Global, host: SmallHost, text: &'static str) -> Result<(), Miss> {
    let intent = Intent::new(alloc);
    play(
        &mut Journal {
            alloc,
            host,
            intent,
        },
        text,
        0,
    )
}

/// The examples, each of which is played on a host of its own.
const EXAMPLES: [&str; 8] = [
    WHOLE,
    PUT,
    SYNCED,
    BESIDE_PUT,
    BESIDE_WHOLE,
    RECOVERED,
    RECOVERED_SO,
    READ,
];

#[test]
fn intents_are_committed_and_recovered(rt: HostRuntime) -> Result<(), Miss> {
    for text in EXAMPLES {
        play_on(rt.alloc(), text)?;
    }
    Ok(())
}

#[test]
fn a_journal_without_a_length_serves(rt: HostRuntime) -> Result<(), Miss> {
    play_with(rt.alloc(), SmallHost::long(), WHOLE)
}
