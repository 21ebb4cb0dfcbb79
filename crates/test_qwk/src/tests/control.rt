//! Files from worked examples. A case is a file, and what is found its texts, its count, its conferences, and whether it
//! is written as it was read; or its first fault.
use super::messages::add_quoted;
use byte_lists::Bytes;
use qwk_control::{Control, Listed, read_control, write_control};
use std::alloc::{AllocError, Global};
use test_cases::{Miss, expect_cases};

/// Adds the first of the texts, in the order of the file.
fn add_texts(alloc: Global, found: &mut String, control: &Control) -> Result<(), AllocError> {
    add_quoted(alloc, found, "", control.board.as_slice())?;
    add_quoted(alloc, found, " ", control.city.as_slice())?;
    add_quoted(alloc, found, " ", control.phone.as_slice())?;
    add_quoted(alloc, found, " ", control.sysop.as_slice())?;
    add_quoted(alloc, found, " ", control.serial.as_slice())?;
    add_quoted(alloc, found, " ", control.bbsid.as_slice())
}

/// Adds the others.
fn add_others(alloc: Global, found: &mut String, control: &Control) -> Result<(), AllocError> {
    add_quoted(alloc, found, " ", control.stamp.as_slice())?;
    add_quoted(alloc, found, " ", control.user.as_slice())?;
    add_quoted(alloc, found, " ", control.menu.as_slice())?;
    add_quoted(alloc, found, " ", control.welcome.as_slice())?;
    add_quoted(alloc, found, " ", control.news.as_slice())?;
    add_quoted(alloc, found, " ", control.goodbye.as_slice())
}

/// The texts.
fn texts_of(alloc: Global, control: &Control) -> Result<String, AllocError> {
    let mut found = String::new(alloc);
    add_texts(alloc, &mut found, control)?;
    add_others(alloc, &mut found, control)?;
    Ok(found)
}

/// The conferences, each number with its name.
fn conferences_of(alloc: Global, conferences: &Listed) -> Result<String, AllocError> {
    let mut found = String::new(alloc);
    for (number, name) in conferences.as_slice() {
        let name = name.as_slice().escape_ascii();
        let conference = format!(in alloc; " {number} \"{name}\"")?;
        found.push_str(conference.as_str())?;
    }
    Ok(found)
}

/// How the file is written that was read.
fn writing_of(alloc: Global, control: &Control, file: &[u8]) -> Result<&'static str, AllocError> {
    if !control.writable() {
        return Ok("not writable");
    }
    let text = write_control(alloc, control)?;
    if text.as_slice() == file {
        Ok("written so")
    } else {
        Ok("written otherwise")
    }
}

fn described(alloc: Global, control: &Control, file: &[u8]) -> Result<String, AllocError> {
    let texts = texts_of(alloc, control)?;
    let copy = control.conferences.copy(alloc)?;
    let conferences = conferences_of(alloc, &copy)?;
    let writing = writing_of(alloc, control, file)?;
    format!(in alloc; "{texts} {}{conferences}, {writing}", control.count)
}

fn read(alloc: Global, words: &[Bytes]) -> Result<String, Miss> {
    let [file] = words else {
        return Err(Miss::Words);
    };
    match read_control(alloc, file.as_slice()) {
        Ok(control) => Ok(described(alloc, &control, file.as_slice())?),
        Err(fault) => Ok(format!(in alloc; "{fault:?}")?),
    }
}

const CASES: &str = r#"
"Test Board\r\nSpringfield\r\n555-0100\r\nSam Sysop\r\n12345,TESTBBS\r\n09-09-2001,01:46:40\r\nANN LEE\r\n\r\n0\r\n1\r\n2\r\n0\r\nGENERAL\r\n1\r\nNETMAIL\r\n7\r\nNEWS\r\nWELCOME\r\nNEWS\r\nGOODBYE\r\n"
=> "Test Board" "Springfield" "555-0100" "Sam Sysop" "12345" "TESTBBS" "09-09-2001,01:46:40" "ANN LEE" "" "WELCOME" "NEWS" "GOODBYE" 1 0 "GENERAL" 1 "NETMAIL" 7 "NEWS", written so
"Test Board\r\nSpringfield\r\n555-0100\r\nSam Sysop\r\n12345,TESTBBS\r\n09-09-2001,01:46:40\r\nANN LEE\r\n\r\n0\r\n1\r\n2\r\n0\r\nGENERAL\r\n1\r\nNETMAIL\r\n7\r\nNEWS\r\nWELCOME\r\nNEWS\r\nGOODBYE\r\n\n\{4096000}"
=> "Test Board" "Springfield" "555-0100" "Sam Sysop" "12345" "TESTBBS" "09-09-2001,01:46:40" "ANN LEE" "" "WELCOME" "NEWS" "GOODBYE" 1 0 "GENERAL" 1 "NETMAIL" 7 "NEWS", written otherwise
"B\nC\nP\nS\n1, ID ,\nT\nU\nM\n0\nmany\n 0 \n 007\nMAIN\nHELLO\r" => BadBoardId
"B\nC\nP\nS\n1, I,D \nT\nU\nM\n0\nmany\n 0 \n 007\nMAIN\nHELLO\r"
=> "B" "C" "P" "S" "1" "I,D" "T" "U" "M" "HELLO\r" "" "" 0 7 "MAIN", not writable
# The first faults.
"Test Board\nSpringfield\n555-0100\nSam Sysop\n" => TooFewLines { line: 5 }
"B\nC\nP\nS\n1,ABCDEFGHI\n" => BadBoardId
"B\nC\nP\nS\n12345\n" => BadBoardId
"B\nC\nP\nS\n1,ID\nT\nU\nM\n0\n1\n70000\n" => BadNumber { line: 11 }
"B\nC\nP\nS\n1,ID\nT\nU\nM\n0\n1\n1\n0\nMAIN\nx\nNEWS\n" => BadNumber { line: 14 }
"B\nC\nP\nS\n1,ID\nT\nU\nM\n0\n1\n1\n0\nMAIN\n1\n" => TooFewLines { line: 15 }
"#;

#[test]
fn control_files_are_read(rt: HostRuntime) -> Result<(), Miss> {
    expect_cases(rt.alloc(), CASES, read)
}
