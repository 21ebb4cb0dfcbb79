//! Fields and texts from worked examples.
use super::shown::{between_bars, only, parts};
use byte_lists::Bytes;
use std::alloc::Global;
use test_cases::{Miss, expect_cases, quoted};
use text_fields::{
    Blank, add_decimal, add_line, digits_of, lines_of, next_line, number_of, split_at_byte,
    trimmed, trimmed_end,
};

fn trim(alloc: Global, words: &[Bytes]) -> Result<String, Miss> {
    let [how, field] = words else {
        return Err(Miss::Words);
    };
    let field = field.as_slice();
    let left = match how.as_slice() {
        b"end" => trimmed_end(field, Blank::SpacesAndNuls),
        b"end-spaces" => trimmed_end(field, Blank::Spaces),
        b"both" => trimmed(field, Blank::SpacesAndNuls),
        _ => trimmed(field, Blank::Spaces),
    };
    Ok(quoted(alloc, left)?)
}

fn read_digits(alloc: Global, words: &[Bytes]) -> Result<String, Miss> {
    let digits = only(words)?;
    if digits.len() > 19 {
        return Err(Miss::Words);
    }
    Ok(format!(in alloc; "{:?}", digits_of(digits))?)
}

/// Reads a number of 9 digits at most between spaces and NULs.
fn read_number(alloc: Global, words: &[Bytes]) -> Result<String, Miss> {
    let number = number_of(only(words)?, Blank::SpacesAndNuls, 9);
    Ok(format!(in alloc; "{number:?}")?)
}

fn split(alloc: Global, words: &[Bytes]) -> Result<String, Miss> {
    Ok(parts(alloc, split_at_byte(only(words)?, b','))?)
}

fn take_line(alloc: Global, words: &[Bytes]) -> Result<String, Miss> {
    Ok(parts(alloc, next_line(only(words)?))?)
}

fn read_lines(alloc: Global, words: &[Bytes]) -> Result<String, Miss> {
    let lines = lines_of(alloc, only(words)?)?;
    Ok(between_bars(alloc, &lines)?)
}

/// Writes each word as a line.
fn write_lines(alloc: Global, words: &[Bytes]) -> Result<String, Miss> {
    let mut text = Bytes::new(alloc);
    for word in words {
        add_line(&mut text, word.as_slice())?;
    }
    Ok(quoted(alloc, text.as_slice())?)
}

/// Writes a number behind another text.
fn write_number(alloc: Global, words: &[Bytes]) -> Result<String, Miss> {
    let number = test_cases::number_of(only(words)?)?;
    let mut text = Bytes::from_slice(alloc, b"at ")?;
    add_decimal(&mut text, u64::from(number))?;
    Ok(quoted(alloc, text.as_slice())?)
}

/// What is found of a case, which begins with what it asks.
fn found(alloc: Global, words: &[Bytes]) -> Result<String, Miss> {
    let [asked, words @ ..] = words else {
        return Err(Miss::Words);
    };
    match asked.as_slice() {
        b"trim" => trim(alloc, words),
        b"digits" => read_digits(alloc, words),
        b"number" => read_number(alloc, words),
        b"split" => split(alloc, words),
        b"line" => take_line(alloc, words),
        b"lines" => read_lines(alloc, words),
        b"write" => write_lines(alloc, words),
        b"decimal" => write_number(alloc, words),
        _ => Err(Miss::Words),
    }
}

const CASES: &str = r#"
# Fields that are trimmed at the end or at both, of spaces and NULs or of spaces alone.
trim end "  Ann Lee \0 " => "  Ann Lee"
trim end-spaces "  Ann Lee \0 " => "  Ann Lee \x00"
trim both "  Ann Lee \0 " => "Ann Lee"
trim both-spaces "   " => ""
# Digits.
digits 0000000001 => Some(1)
digits 4294967295 => Some(4294967295)
digits "" => None
digits +1 => None
digits "1 " => None
# Numbers between blanks.
number " 65535 " => Some(65535)
number \012\0 => Some(12)
number "1 2" => None
number 1234567890 => None
number " " => None
# Texts, and what stands in front of their first comma and behind it.
split 12345,TEST,BBS => "12345" "TEST,BBS"
split 12345 => none
# Texts, and their first line and the rest.
line one\r\ntwo\r => "one" "two\r"
line two\r => "two\r" ""
line "" => none
# The lines of texts.
lines one\r\n\ntwo\r\r\nthree\r => "|one||two\r|three\r|"
lines "" => "|"
lines one\n => "|one|"
lines one\r\n\r\n => "|one||"
# Lines, and numbers, as they are written.
write one "" => "one\r\n\r\n"
decimal 4294967295 => "at 4294967295"
"#;

#[test]
fn fields_and_lines_are_read_and_written(rt: HostRuntime) -> Result<(), Miss> {
    expect_cases(rt.alloc(), CASES, found)
}
