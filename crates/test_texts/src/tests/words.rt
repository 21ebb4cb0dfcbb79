//! Words, and what they mean on a board of three conferences. A case is a word.
use byte_lists::Bytes;
use cmd_words::{Choice, number_of};
use jam_records::Kind;
use setup_file::Conference;
use std::alloc::{AllocError, Global};
use test_cases::{Miss, expect_cases};

fn read_number(alloc: Global, words: &[Bytes]) -> Result<String, Miss> {
    let [word] = words else {
        return Err(Miss::Words);
    };
    Ok(format!(in alloc; "{:?}", number_of(word.as_slice()))?)
}

/// A conference of this number.
fn conference(alloc: Global, number: u16) -> Result<Conference, AllocError> {
    Ok(Conference {
        number,
        kind: Kind::Local,
        readonly: false,
        private: false,
        name: Bytes::from_slice(alloc, b"NEWS")?,
    })
}

/// What is found is whether a word names a conference that isn't 0, 1 or 7, and the places that it names of these, the last
/// in front; or nothing where it chooses none.
fn choose(alloc: Global, words: &[Bytes]) -> Result<String, Miss> {
    let [word] = words else {
        return Err(Miss::Words);
    };
    let Some(choice) = Choice::parse(alloc, word.as_slice())? else {
        return Ok(String::from_str(alloc, "no choice")?);
    };
    let conferences = [
        conference(alloc, 0)?,
        conference(alloc, 1)?,
        conference(alloc, 7)?,
    ];
    let is_known = !choice.has_unknown(&conferences);
    let places = choice.places(&conferences);
    Ok(format!(in alloc;
        "{} {places:03b}",
        if is_known { "known" } else { "unknown" }
    )?)
}

/// What is found of a case, which begins with what it asks.
fn found(alloc: Global, words: &[Bytes]) -> Result<String, Miss> {
    let [asked, words @ ..] = words else {
        return Err(Miss::Words);
    };
    match asked.as_slice() {
        b"number" => read_number(alloc, words),
        b"conferences" => choose(alloc, words),
        _ => Err(Miss::Words),
    }
}

const CASES: &str = r#"
number 0 => Some(0)
number 0000000007 => Some(7)
number 4294967295 => Some(4294967295)
number 4294967296 => None
number 00000000007 => None
number +7 => None
number "" => None
conferences all => known 111
conferences 0 => known 001
conferences 7,0,7 => known 101
conferences 1,0007 => known 110
conferences 2,1 => unknown 010
conferences 65536 => unknown 000
conferences "" => no choice
conferences all,0 => no choice
conferences 0, => no choice
conferences ,0 => no choice
conferences 0,,1 => no choice
conferences -1 => no choice
"#;

#[test]
fn words_of_commands_are_read(rt: HostRuntime) -> Result<(), Miss> {
    expect_cases(rt.alloc(), CASES, found)
}
