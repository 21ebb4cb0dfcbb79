//! Headers that share their subfields and their text. A case is how many empty subfields and line feeds follow a header and
//! its text, and how many records name the header. A reader that went over all of these for each record would take
//! 6,400,000,000 steps.
use super::files::ForeignFiles;
use byte_lists::Bytes;
use jam_adopt::{Foreign, ForeignError, Found, FoundVerdict};
use std::alloc::{AllocError, Global};
use test_cases::{Miss, expect_cases, number_of};

/// Cuts the subfields, the text and the records of the first header off, and gives it the lengths of those that follow.
fn cut(alloc: Global, files: &mut ForeignFiles, shared: u32) -> Result<(), Miss> {
    let fields_len = shared.saturating_mul(8).saturating_add(11);
    let text_len = shared.saturating_add(1);
    files.change(alloc, b"jhr", b"cut", b"1100")?;
    files.change(alloc, b"jhr", b"1032", &fields_len.to_le_bytes())?;
    files.change(alloc, b"jhr", b"1088", &text_len.to_le_bytes())?;
    files.change(alloc, b"jdt", b"cut", b"0")?;
    files.change(alloc, b"jdx", b"cut", b"0")
}

/// Adds so many empty subfields, and behind these one with a name; so many line feeds, and a letter behind these; and so
/// many records.
fn add(files: &mut ForeignFiles, shared: u32, records: u32) -> Result<(), AllocError> {
    for _ in 0..shared {
        files.jhr.add(b"\xD0\x07\0\0\0\0\0\0")?;
        files.jdt.add(b"\n")?;
    }
    files.jhr.add(b"\x02\0\0\0\x03\0\0\0Joe")?;
    files.jdt.add(b"a")?;
    for _ in 0..records {
        files.jdx.add(b"\0\0\0\0\0\x04\0\0")?;
    }
    Ok(())
}

/// The files of one header that these share.
fn shared_files(alloc: Global, shared: u32, records: u32) -> Result<ForeignFiles, Miss> {
    let mut files = ForeignFiles::two(alloc)?;
    cut(alloc, &mut files, shared)?;
    add(&mut files, shared, records)?;
    Ok(files)
}

/// Whether it is a message from Joe with a body of one line.
fn is_from_joe(one: &Found) -> bool {
    match &one.verdict {
        FoundVerdict::Taken(message) => {
            message.from.as_slice() == b"Joe".as_slice()
                && message.body.as_slice() == b"a\r".as_slice()
        }
        FoundVerdict::Refused(_) => false,
    }
}

/// How many messages from Joe with a body of one line are found.
fn count_from_joe(read: &Result<Foreign, ForeignError>) -> usize {
    match read {
        Ok(found) => found
            .as_slice()
            .iter()
            .filter(|one| is_from_joe(one))
            .count(),
        Err(_) => 0,
    }
}

/// Finds how many messages from Joe there are.
fn shared(alloc: Global, words: &[Bytes]) -> Result<String, Miss> {
    let [fields, records] = words else {
        return Err(Miss::Words);
    };
    let fields = number_of(fields.as_slice())?;
    let records = number_of(records.as_slice())?;
    let files = shared_files(alloc, fields, records)?;
    let count = count_from_joe(&files.read(alloc)?);
    Ok(format!(in alloc; "{count} from Joe")?)
}

#[test]
fn records_may_share_a_header(rt: HostRuntime) -> Result<(), Miss> {
    expect_cases(rt.alloc(), "160000 20000 => 20000 from Joe", shared)
}
