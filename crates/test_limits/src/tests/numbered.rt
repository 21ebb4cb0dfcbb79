//! Transcripts with parts that stand once for each of some numbers.
//!
//! `[[FIRST LAST TEXT]]` is the text once for each number from the first to the last, with the number for each `#` of it.
//! What begins so and reads otherwise loses its brackets, and then is another transcript.
use std::alloc::{AllocError, Global};
use test_runs::{Miss, expect_transcript};

/// The first and the last number of a part that stands once for each, and its text.
fn numbered(part: &str) -> Option<(u32, u32, &str)> {
    let (first, rest) = part.split_once(' ')?;
    let (last, text) = rest.split_once(' ')?;
    Some((first.parse().ok()?, last.parse().ok()?, text))
}

/// Adds a text with a number for each `#`.
fn add_copy(alloc: Global, made: &mut String, text: &str, number: u32) -> Result<(), AllocError> {
    let digits = format!(in alloc; "{number}")?;
    let copy = text.replace(alloc, '#', digits.as_str())?;
    made.push_str(copy.as_str())
}

/// Adds what stands between brackets.
fn add_copies(alloc: Global, made: &mut String, between: &str) -> Result<(), AllocError> {
    let Some((first, last, text)) = numbered(between) else {
        return made.push_str(between);
    };
    for number in first..=last {
        add_copy(alloc, made, text, number)?;
    }
    Ok(())
}

/// Adds a piece of a transcript, which ends before the next brackets. All but the first begin with what stands between
/// brackets.
fn add_piece(alloc: Global, made: &mut String, piece: &str) -> Result<(), AllocError> {
    let Some((between, rest)) = piece.split_once("]]") else {
        return made.push_str(piece);
    };
    add_copies(alloc, made, between)?;
    made.push_str(rest)
}

/// Adds a transcript, or a part of one, with what stands between brackets written out.
fn add_written(alloc: Global, made: &mut String, part: &str) -> Result<(), AllocError> {
    for piece in part.split("[[") {
        add_piece(alloc, made, piece)?;
    }
    Ok(())
}

/// The parts of a transcript behind one another, with what stands between brackets written out.
pub fn written_out(alloc: Global, parts: &[&str]) -> Result<String, AllocError> {
    let mut made = String::new(alloc);
    for part in parts {
        add_written(alloc, &mut made, part)?;
    }
    Ok(made)
}

/// Plays a transcript of these parts on empty files. Each ends with a line end, and only the first begins with one.
pub fn expect_joined(alloc: Global, parts: &[&str]) -> Result<(), Miss> {
    let transcript = written_out(alloc, parts)?;
    expect_transcript(alloc, transcript.as_str())
}

/// Plays each of some transcripts on empty files.
pub fn expect_each(alloc: Global, transcripts: &[&str]) -> Result<(), Miss> {
    for transcript in transcripts {
        expect_joined(alloc, &[*transcript])?;
    }
    Ok(())
}
