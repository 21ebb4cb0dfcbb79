//! A host in memory: what its calls do, and what a crash leaves of it.
use super::examples::{Example, Miss, answered, ends, expect, is_number, numbered, parted, play};
use door_outside::{FileId, Host};
use memory_outside::{CallNumbers, FaultPlan, ImageChoice, MemoryHost};
use std::alloc::{AllocError, Global};

const WRITTEN: &str = "\
write 0 2 abcdef
write 0 4 UVWXYZ
cut 0 9
cut 0 11
sync 0
length 0 = 9
length 1 = 0
file 0 = \0\0abUVWXY
";

/// Reads of 4 bytes at most: how many came, and what stands in a buffer of points.
const READ: &str = "\
write 0 3 UVWXYZ
read 0 2 = 4 \0UVW
read 0 7 = 2 YZ..
read 0 9 = 0 ....
";

/// The first, the third, the fifth and all further calls fail.
const FAILED: &str = "\
say lost = fault
write 0 0 stays.
cut 0 0 = fault
sync 0
write 0 0 passed = fault
length 0 = fault
file 0 = stays.
said
";

/// A write and a cut that aren't synced.
const HISTORY: &str = "\
put 1 put
write 0 0 synced
sync 0
write 0 4 UVWXYZ
cut 1 1
say said
";

/// What a crash leaves of the history where nothing took hold that wasn't synced.
const LEFT_SYNCED: &str = "\
file 0 = synced
file 1 = put
";

/// What it leaves where all took hold.
const LEFT_WRITTEN: &str = "\
file 0 = syncUVWXYZ
file 1 = p
said = said
";

/// A plan by which the calls of these numbers fail, and all from `stop` on.
pub(crate) fn plan(
    alloc: Global,
    numbers: &[u32],
    stop: Option<u32>,
) -> Result<FaultPlan, AllocError> {
    let mut fails = CallNumbers::new(alloc);
    for number in numbers {
        fails.add(*number)?;
    }
    Ok(FaultPlan { fails, stop })
}

/// An empty host whose calls don't fail.
pub(crate) fn empty(alloc: Global) -> MemoryHost {
    let fails = CallNumbers::new(alloc);
    MemoryHost::new(alloc, FaultPlan { fails, stop: None })
}

fn put(host: &mut MemoryHost, file: FileId, text: &str) -> Option<bool> {
    let bytes = text.as_bytes();
    if bytes.len() > 64 {
        return None;
    }
    Some(host.put(file, bytes).is_ok())
}

fn write<H: Host>(host: &mut H, file: FileId, at: u16, text: &str, answer: &str) -> Option<bool> {
    let bytes = text.as_bytes();
    if bytes.len() > 64 {
        return None;
    }
    Some(ends(host.write_at(file, u32::from(at), bytes).is_ok(), answer))
}

fn length<H: Host>(host: &mut H, file: FileId, answer: &str) -> bool {
    match host.length(file) {
        Ok(length) => is_number(u64::from(length), answer),
        Err(_) => answer == "fault",
    }
}

fn read<H: Host>(host: &mut H, file: FileId, at: u16, answer: &str) -> Option<bool> {
    let (count, left) = numbered(answer)?;
    let mut buf = [b'.'; 4];
    let given = host.read_at(file, u32::from(at), &mut buf).ok()?;
    Some(given == count as usize && buf.as_slice() == left.as_bytes())
}

/// Whether a line on a place of a file is so.
fn place_is_so<H: Host>(
    host: &mut H,
    file: FileId,
    verb: &str,
    words: &str,
    answer: &str,
) -> Option<bool> {
    let (place, text) = parted(words);
    let place = place.parse::<u16>().ok()?;
    match verb {
        "write" => write(host, file, place, text, answer),
        "cut" => Some(ends(host.cut(file, u32::from(place)).is_ok(), answer)),
        "read" => read(host, file, place, answer),
        _ => None,
    }
}

/// Whether a line on a file of any host is so.
pub(crate) fn call_is_so<H: Host>(
    host: &mut H,
    file: FileId,
    verb: &str,
    words: &str,
    answer: &str,
) -> Option<bool> {
    match verb {
        "sync" => Some(ends(host.sync(file).is_ok(), answer)),
        "length" => Some(length(host, file, answer)),
        _ => place_is_so(host, file, verb, words, answer),
    }
}

/// Whether a line on a file is so.
fn file_is_so(host: &mut MemoryHost, verb: &str, words: &str, answer: &str) -> Option<bool> {
    let (number, words) = parted(words);
    let file = FileId::new(number.parse::<u16>().ok()?)?;
    match verb {
        "put" => put(host, file, words),
        "file" => Some(host.file(file) == answer.as_bytes()),
        _ => call_is_so(host, file, verb, words, answer),
    }
}

impl Example for MemoryHost {
    fn is_so(&mut self, line: &str) -> Option<bool> {
        let (call, answer) = answered(line);
        let (verb, words) = parted(call);
        match verb {
            "say" => Some(ends(self.say(words.as_bytes()).is_ok(), answer)),
            "said" => Some(self.said() == answer.as_bytes()),
            _ => file_is_so(self, verb, words, answer),
        }
    }
}

#[test]
fn a_host_reads_back_what_was_written(rt: HostRuntime) -> Result<(), Miss> {
    play(&mut empty(rt.alloc()), WRITTEN, 0)
}

#[test]
fn a_read_ends_with_the_file(rt: HostRuntime) -> Result<(), Miss> {
    play(&mut empty(rt.alloc()), READ, 0)
}

#[test]
fn calls_of_a_host_fail_by_plan(rt: HostRuntime) -> Result<(), Miss> {
    let plan = plan(rt.alloc(), &[1, 3], Some(5))?;
    play(&mut MemoryHost::new(rt.alloc(), plan), FAILED, 0)
}

/// What a crash leaves of a host.
fn crashed(
    alloc: Global,
    host: &MemoryHost,
    choice: ImageChoice,
) -> Result<MemoryHost, AllocError> {
    let fails = CallNumbers::new(alloc);
    host.after_crash(alloc, choice, FaultPlan { fails, stop: None })
}

/// Plays an example on what a crash leaves of a host.
fn play_after(
    alloc: Global,
    host: &MemoryHost,
    choice: ImageChoice,
    text: &'static str,
) -> Result<(), Miss> {
    let mut left = crashed(alloc, host, choice)?;
    play(&mut left, text, 0)
}

/// Whether a crash may leave this of the history.
fn is_image(host: &MemoryHost) -> bool {
    let bytes = host.file(FileId::ledger());
    bytes.starts_with(b"sync")
        && (6..=10).contains(&bytes.len())
        && host.file(FileId::journal()).starts_with(b"p")
        && host.said() == b"said".as_slice()
}

fn leaves_image(alloc: Global, host: &MemoryHost, seed: u32) -> Option<bool> {
    match crashed(alloc, host, ImageChoice::Mixed(seed)) {
        Ok(left) => Some(is_image(&left)),
        Err(_) => None,
    }
}

/// Plays the history, and looks at each image that a crash may leave of it.
fn play_history(alloc: Global, host: &mut MemoryHost) -> Result<(), Miss> {
    play(host, HISTORY, 0)?;
    play_after(alloc, host, ImageChoice::Synced, LEFT_SYNCED)?;
    play_after(alloc, host, ImageChoice::Written, LEFT_WRITTEN)?;
    for seed in 0..20 {
        expect(
            leaves_image(alloc, host, seed),
            "an image of the history",
            seed,
        )?;
    }
    Ok(())
}

#[test]
fn a_crash_leaves_an_image_of_the_history(rt: HostRuntime) -> Result<(), Miss> {
    play_history(rt.alloc(), &mut empty(rt.alloc()))
}

/// How many bytes a long file has: more than one draw reaches.
const LONG: usize = 200_000;

fn put_long(alloc: Global, host: &mut MemoryHost) -> Result<(), AllocError> {
    let old = vec![in alloc; b'a'; LONG]?;
    host.put(FileId::ledger(), &old)
}

fn write_long(alloc: Global, host: &mut MemoryHost) -> Option<bool> {
    let new = vec![in alloc; b'b'; LONG].ok()?;
    Some(host.write_at(FileId::ledger(), 0, &new).is_ok())
}

/// The place of the first byte of the ledger that a crash left written, where some were and some weren't.
fn torn_from(host: &MemoryHost) -> Option<usize> {
    let bytes = host.file(FileId::ledger());
    if bytes.iter().all(|b| *b == b'b') {
        return None;
    }
    bytes.iter().position(|b| *b == b'b')
}

/// That place in the image of a seed.
fn torn_by(alloc: Global, host: &MemoryHost, seed: u32) -> Result<Option<usize>, AllocError> {
    let left = crashed(alloc, host, ImageChoice::Mixed(seed))?;
    Ok(torn_from(&left))
}

/// Whether images are torn both before and behind the place that one draw reaches.
fn is_torn_anywhere(alloc: Global, host: &MemoryHost) -> Result<bool, AllocError> {
    let mut early = false;
    let mut late = false;
    for seed in 0..20 {
        match torn_by(alloc, host, seed)? {
            Some(from) if from <= 65_536 => early = true,
            Some(_) => late = true,
            None => {}
        }
    }
    Ok(early && late)
}

/// Makes a ledger that is all `a` on the disk, and all `b` as it reads.
fn tear_long(alloc: Global, host: &mut MemoryHost) -> Result<(), Miss> {
    put_long(alloc, host)?;
    expect(write_long(alloc, host), "a long write", 0)?;
    expect(Some(is_torn_anywhere(alloc, host)?), "torn anywhere", 0)?;
    expect(Some(host.wrote() == LONG as u64), "bytes written", 0)
}

#[test]
fn a_mixed_image_is_torn_anywhere_in_a_file(rt: HostRuntime) -> Result<(), Miss> {
    tear_long(rt.alloc(), &mut empty(rt.alloc()))
}

/// Writes many records, one behind the other.
fn write_many(host: &mut MemoryHost) -> Result<(), Miss> {
    for turn in 0u16..10_000 {
        let at = u32::from(turn) * 6;
        let done = host.write_at(FileId::journal(), at, b"record").is_ok();
        expect(Some(done), "a record", u32::from(turn))?;
    }
    expect(
        Some(length(host, FileId::journal(), "60000")),
        "the length of records",
        0,
    )?;
    expect(Some(host.starved() == 0), "no call starved", 0)
}

#[test]
fn a_host_takes_many_appends(rt: HostRuntime) -> Result<(), Miss> {
    write_many(&mut empty(rt.alloc()))
}
