//! Files from worked examples. A case is what it asks, and then how many bytes of a file are read, and its blocks.
mod pieces;

use super::files::{file_of, front_of};
use super::messages::described;
use byte_lists::Bytes;
use qwk_blocks::{QwkError, QwkMessages, read_messages, write_messages};
use std::alloc::Global;
use test_cases::{Miss, expect_cases, number_of, words_in};

/// The blocks of a notice and two messages, 640 bytes.
const TWO: &str = r#"
"Produced by qwkdoor, packet 1"
" 1      09-09-0101:46ALL                      BOB RAY                  Hello                                0       2     \xE1\0\0\x01\0 "
"First line\xE3"
" 1      09-09-0101:46ALL                      BOB RAY                  Hello                                0       2     \xE1\0\0\x01\0 "
"First line\xE3"
"#;

/// The messages of a short file.
fn messages_of(alloc: Global, file: &Bytes) -> Result<QwkMessages, QwkError> {
    if file.as_slice().len() > 1000 {
        return Err(QwkError::OutOfMemory);
    }
    read_messages(alloc, file.as_slice())
}

/// What a file reads as, by a copy of its messages.
fn reading_of(alloc: Global, file: &Bytes) -> Result<String, Miss> {
    match messages_of(alloc, file) {
        Ok(messages) => Ok(described(alloc, messages.copy(alloc)?.as_slice())?),
        Err(error) => Ok(format!(in alloc; "{error:?}")?),
    }
}

fn read(alloc: Global, words: &[Bytes]) -> Result<String, Miss> {
    reading_of(alloc, &file_of(alloc, words)?)
}

/// Reads so many bytes of the two messages.
fn read_front(alloc: Global, words: &[Bytes]) -> Result<String, Miss> {
    let [length] = words else {
        return Err(Miss::Words);
    };
    let blocks = words_in(alloc, TWO)?;
    let front = front_of(alloc, blocks.as_slice(), number_of(length.as_slice())?)?;
    reading_of(alloc, &front)
}

/// The written form of messages behind a notice.
fn write(alloc: Global, notice: &[u8], messages: &QwkMessages) -> Result<Bytes, Miss> {
    let writable = messages.as_slice().iter().all(|message| message.writable());
    if !writable || messages.len() > 16 || notice.len() > 128 {
        return Err(Miss::Unreached);
    }
    Ok(write_messages(alloc, notice, messages)?)
}

/// Reads a file and writes it again. What is found are its messages, or other bytes that are written.
fn read_and_write(alloc: Global, words: &[Bytes]) -> Result<String, Miss> {
    let file = file_of(alloc, words)?;
    let messages = messages_of(alloc, &file).ok().ok_or(Miss::Unreached)?;
    let written = write(alloc, b"Produced by qwkdoor, packet 1", &messages)?;
    if written.as_slice() != file.as_slice() {
        return Ok(format!(in alloc; "written as {}", written.as_slice().escape_ascii())?);
    }
    Ok(described(alloc, messages.as_slice())?)
}

/// What is found of a case, which begins with what it asks.
fn found(alloc: Global, words: &[Bytes]) -> Result<String, Miss> {
    let [asked, words @ ..] = words else {
        return Err(Miss::Words);
    };
    match asked.as_slice() {
        b"file" => read(alloc, words),
        b"front" => read_front(alloc, words),
        b"write" => read_and_write(alloc, words),
        _ => Err(Miss::Words),
    }
}

const CASES: &str = r#"
# A message whose text is filled up with spaces, one with NULs, one with no text; and counts that are none.
file 384 "Produced by qwkdoor, packet 1"
" 1      09-09-0101:46ALL                      BOB RAY                  Hello                                0       2     \xE1\0\0\x01\0 "
"First line\xE3"
=> 1 messages; " \xe1 " "09-09-01" "01:46" "ALL" "BOB RAY" "Hello" "" Some(1) Some(0) 0 1: "First line"
file 384 "Produced by qwkdoor, packet 1"
" 1      09-09-0101:46ALL                      BOB RAY                  Hello                                0       2     \xE1\0\0\x01\0 "
"First line\xE3\0\{117}"
=> 1 messages; " \xe1 " "09-09-01" "01:46" "ALL" "BOB RAY" "Hello" "" Some(1) Some(0) 0 1: "First line"
file 256 "Produced by qwkdoor, packet 1"
" 1      09-09-0101:46ALL                      BOB RAY                  Hello                                0       1     \xE1\0\0\x01\0 "
=> 1 messages; " \xe1 " "09-09-01" "01:46" "ALL" "BOB RAY" "Hello" "" Some(1) Some(0) 0 1:
file 384 "Produced by qwkdoor, packet 1"
" 1      09-09-0101:46ALL                      BOB RAY                  Hello                                0       0     \xE1\0\0\x01\0 "
"First line\xE3"
=> Fault(BadBlocks { at: 128 })
file 384 "Produced by qwkdoor, packet 1"
" 1      09-09-0101:46ALL                      BOB RAY                  Hello                                0             \xE1\0\0\x01\0 "
"First line\xE3"
=> Fault(BadBlocks { at: 128 })
file 384 "Produced by qwkdoor, packet 1"
" 1      09-09-0101:46ALL                      BOB RAY                  Hello                                0       2x    \xE1\0\0\x01\0 "
"First line\xE3"
=> Fault(BadBlocks { at: 128 })
file 384 "Produced by qwkdoor, packet 1"
" 1      09-09-0101:46ALL                      BOB RAY                  Hello                                0       1 2   \xE1\0\0\x01\0 "
"First line\xE3"
=> Fault(BadBlocks { at: 128 })
front 128 => 0 messages
front 384 => 1 messages; " \xe1 " "09-09-01" "01:46" "ALL" "BOB RAY" "Hello" "" Some(1) Some(0) 0 1: "First line"
front 640 => 2 messages; " \xe1 " "09-09-01" "01:46" "ALL" "BOB RAY" "Hello" "" Some(1) Some(0) 0 1: "First line"; " \xe1 " "09-09-01" "01:46" "ALL" "BOB RAY" "Hello" "" Some(1) Some(0) 0 1: "First line"
front 0 => Fault(Truncated { at: 0 })
front 127 => Fault(Truncated { at: 0 })
front 129 => Fault(Truncated { at: 128 })
front 256 => Fault(Truncated { at: 128 })
front 639 => Fault(Truncated { at: 384 })
# Texts that end with a block, one byte behind it, and that are empty; a private message with a password and a reference,
# of two blocks of text, and a killed public one without a subject and a reference.
write 384 "Produced by qwkdoor, packet 1"
" 1      09-09-0101:46ALL                      BOB RAY                  Hello                                0       2     \xE1\0\0\x01\0 "
x\{127}\xE3
=> 1 messages; " \xe1 " "09-09-01" "01:46" "ALL" "BOB RAY" "Hello" "" Some(1) Some(0) 0 1: "xxxxxxxxxxxxxxxxxxxxxxxxxxxxxxxxxxxxxxxxxxxxxxxxxxxxxxxxxxxxxxxxxxxxxxxxxxxxxxxxxxxxxxxxxxxxxxxxxxxxxxxxxxxxxxxxxxxxxxxxxxxxxxx"
write 512 "Produced by qwkdoor, packet 1"
" 1      09-09-0101:46ALL                      BOB RAY                  Hello                                0       3     \xE1\0\0\x01\0 "
x\{128}
\xE3
=> 1 messages; " \xe1 " "09-09-01" "01:46" "ALL" "BOB RAY" "Hello" "" Some(1) Some(0) 0 1: "xxxxxxxxxxxxxxxxxxxxxxxxxxxxxxxxxxxxxxxxxxxxxxxxxxxxxxxxxxxxxxxxxxxxxxxxxxxxxxxxxxxxxxxxxxxxxxxxxxxxxxxxxxxxxxxxxxxxxxxxxxxxxxxx"
write 384 "Produced by qwkdoor, packet 1"
" 1      09-09-0101:46ALL                      BOB RAY                  Hello                                0       2     \xE1\0\0\x01\0 "
""
=> 1 messages; " \xe1 " "09-09-01" "01:46" "ALL" "BOB RAY" "Hello" "" Some(1) Some(0) 0 1:
write 768 "Produced by qwkdoor, packet 1"
"+999999911-27-2623:59SAM SYSOP                ANN LEE                  Re: Hello                SECRETSECRET999999993     \xE1\x07\x01\x01\x00*"
"Dear Sam,\xE3\xE3this line has a  gap, and spaces at its end  \xE3and with this one the text takes more than a single block of one hundre"
"d and twenty-eight bytes.\xE3"
" 7      09-09-0101:46ALL                      BOB RAY                                                               2     \xE2\x07\x00\x01\x02 "
"First line\xE3"
=> 2 messages; "+\xe1*" "11-27-26" "23:59" "SAM SYSOP" "ANN LEE" "Re: Hello" "SECRETSECRET" Some(9999999) Some(99999999) 263 1: "Dear Sam," "" "this line has a  gap, and spaces at its end  " "and with this one the text takes more than a single block of one hundred and twenty-eight bytes."; " \xe2 " "09-09-01" "01:46" "ALL" "BOB RAY" "" "" Some(7) None 7 513: "First line"
"#;

#[test]
fn files_are_read_and_written(rt: HostRuntime) -> Result<(), Miss> {
    expect_cases(rt.alloc(), CASES, found)
}
