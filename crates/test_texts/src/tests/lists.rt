//! Lists, filled up, moved and copied.
use byte_lists::{Bytes, Lines, List};
use std::alloc::{AllocError, Global};
use std::process::Abort;
use std::test::Fail;
use test_cases::{Miss, expect_cases, number_of};

/// A list of copies of these lines.
fn lines_of(alloc: Global, words: &[Bytes]) -> Result<Lines, AllocError> {
    let mut lines = Lines::new(alloc);
    for word in words {
        lines.add(Bytes::from_slice(alloc, word.as_slice())?)?;
    }
    Ok(lines)
}

/// Adds a line that is moved into a list.
fn add_moved(alloc: Global, lines: &mut Lines, line: &[u8]) -> Result<(), AllocError> {
    lines.add(Bytes::from_vec(line.to_vec(alloc)?))
}

/// How many lines there are, and the one in a place.
fn line_in(alloc: Global, lines: &Lines, place: u32) -> Result<String, AllocError> {
    match lines.get(place as usize) {
        Some(line) => {
            let line = line.as_slice().escape_ascii();
            format!(in alloc; "of {} \"{line}\"", lines.len())
        }
        None => format!(in alloc; "of {} none", lines.len()),
    }
}

/// The line in a place of a copy.
fn copied_in(alloc: Global, lines: &Lines, place: u32) -> Result<String, AllocError> {
    let copy = lines.copy(alloc)?;
    line_in(alloc, &copy, place)
}

/// The line in a place of a copy of these lines, of which the first is moved to their end.
fn copy_lines(alloc: Global, words: &[Bytes]) -> Result<String, Miss> {
    let [place, moved, words @ ..] = words else {
        return Err(Miss::Words);
    };
    let place = number_of(place.as_slice())?;
    let mut lines = lines_of(alloc, words)?;
    add_moved(alloc, &mut lines, moved.as_slice())?;
    Ok(copied_in(alloc, &lines, place)?)
}

/// A case is a place from 0, the last line and the others.
const COPIES: &str = r#"
0 Moved "First line" "" Last => of 4 "First line"
3 Moved "First line" "" Last => of 4 "Moved"
4 Moved "First line" "" Last => of 4 none
"#;

#[test]
fn a_list_of_lines_is_copied(rt: HostRuntime) -> Result<(), Miss> {
    expect_cases(rt.alloc(), COPIES, copy_lines)
}

#[test]
fn numbers_and_pairs_are_copied(rt: HostRuntime) -> Result<(), Fail> {
    let mut pairs = List::new(rt.alloc());
    pairs.add((Some(7u16), 8u32))?;
    pairs.add((None, 9))?;
    let copy = pairs.copy(rt.alloc())?;
    assert_eq!(rt; copy.as_slice(), [(Some(7), 8), (None, 9)].as_slice());
    Ok(())
}

#[test]
fn a_list_is_filled_up_and_moved(rt: HostRuntime) -> Result<(), Fail> {
    let mut numbers = List::from_vec([7u32].to_vec(rt.alloc())?);
    numbers.fill(rt.alloc(), &9, 3)?;
    numbers.fill(rt.alloc(), &8, 2)?;
    assert_eq!(rt; numbers.into_vec().as_slice(), [7, 9, 9].as_slice());
    Ok(())
}
