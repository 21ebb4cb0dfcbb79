//! Long names and subjects. A case is what it asks, and then To, From, the subject and the lines of a message, and so
//! is what is found.
use super::messages::{add_lines, add_quoted};
use byte_lists::{Bytes, Lines};
use long_names::{plain, with_long};
use qwk_blocks::{Header, QwkMessage};
use std::alloc::{AllocError, Global};
use test_cases::{Miss, expect_cases};

/// A message without texts.
fn empty_message(alloc: Global) -> QwkMessage {
    QwkMessage {
        header: Header {
            status: b' ',
            number: Some(1),
            date: *b"09-09-01",
            time: *b"01:46",
            to: Bytes::new(alloc),
            from: Bytes::new(alloc),
            subject: Bytes::new(alloc),
            password: Bytes::new(alloc),
            reference: Some(0),
            activity: 0xE1,
            conference: 0,
            logical: 1,
            tag: b' ',
        },
        lines: Lines::new(alloc),
    }
}

/// Gives an empty header its texts.
fn fill_header(
    header: &mut Header,
    to: &Bytes,
    from: &Bytes,
    subject: &Bytes,
) -> Result<(), AllocError> {
    header.to.add(to.as_slice())?;
    header.from.add(from.as_slice())?;
    header.subject.add(subject.as_slice())
}

/// Gives an empty message the texts of a case.
fn fill(alloc: Global, message: &mut QwkMessage, words: &[Bytes]) -> Result<(), Miss> {
    let [to, from, subject, text @ ..] = words else {
        return Err(Miss::Words);
    };
    fill_header(&mut message.header, to, from, subject)?;
    Ok(add_lines(alloc, &mut message.lines, text)?)
}

/// Adds the texts of a message in the words of a case.
fn add_texts(alloc: Global, found: &mut String, message: &QwkMessage) -> Result<(), AllocError> {
    let header = &message.header;
    add_quoted(alloc, found, "", header.to.as_slice())?;
    add_quoted(alloc, found, " ", header.from.as_slice())?;
    add_quoted(alloc, found, " ", header.subject.as_slice())?;
    for line in message.lines.as_slice() {
        add_quoted(alloc, found, " ", line.as_slice())?;
    }
    Ok(())
}

/// A message in the words of a case.
fn described(alloc: Global, message: &QwkMessage) -> Result<String, AllocError> {
    let mut found = String::new(alloc);
    add_texts(alloc, &mut found, message)?;
    Ok(found)
}

/// The message as it is read.
fn read_filled(alloc: Global, message: &mut QwkMessage, words: &[Bytes]) -> Result<String, Miss> {
    fill(alloc, message, words)?;
    let read = plain(alloc, message)?;
    Ok(described(alloc, &read)?)
}

fn read(alloc: Global, words: &[Bytes]) -> Result<String, Miss> {
    read_filled(alloc, &mut empty_message(alloc), words)
}

/// The message as it goes.
fn gone_filled(alloc: Global, message: &mut QwkMessage, words: &[Bytes]) -> Result<String, Miss> {
    fill(alloc, message, words)?;
    let gone = with_long(alloc, message)?;
    Ok(described(alloc, &gone)?)
}

fn gone(alloc: Global, words: &[Bytes]) -> Result<String, Miss> {
    gone_filled(alloc, &mut empty_message(alloc), words)
}

/// What is found of a case, which begins with what it asks.
fn found(alloc: Global, words: &[Bytes]) -> Result<String, Miss> {
    let [asked, words @ ..] = words else {
        return Err(Miss::Words);
    };
    match asked.as_slice() {
        b"gone" => gone(alloc, words),
        b"read" => read(alloc, words),
        _ => Err(Miss::Words),
    }
}

const CASES: &str = r#"
# Values of 25, 26, 36 and 37 bytes, and a subject of 72 and 73.
gone "abcdefghijklmnopqrstuvwxy" "B" "S" "Hi"
=> "abcdefghijklmnopqrstuvwxy" "B" "S" "Hi"
gone "abcdefghijklmnopqrstuvwxyz" "B" "S" "Hi"
=> "abcdefghijklmnopqrstuvwxy" "B" "S" "To: abcdefghijklmnopqrstuvwxyz" "" "Hi"
gone "A" "abcdefghijklmnopqrstuvwxyz0123456789" "S" "Hi"
=> "A" "abcdefghijklmnopqrstuvwxy" "S" "From: abcdefghijklmnopqrstuvwxyz0123456789" "" "Hi"
gone "A" "abcdefghijklmnopqrstuvwxyz0123456789a" "S" "Hi"
=> "A" "abcdefghijklmnopqrstuvwxyz0123456789a" "S" "Hi"
gone "A" "B" "abcdefghijklmnopqrstuvwxyz0123456789abcdefghijklmnopqrstuvwxyz0123456789"
=> "A" "B" "abcdefghijklmnopqrstuvwxy" "Subject: abcdefghijklmnopqrstuvwxyz0123456789abcdefghijklmnopqrstuvwxyz0123456789" ""
gone "A" "B" "abcdefghijklmnopqrstuvwxyz0123456789abcdefghijklmnopqrstuvwxyz0123456789a"
=> "A" "B" "abcdefghijklmnopqrstuvwxyz0123456789abcdefghijklmnopqrstuvwxyz0123456789a"
# All three, in their order; and one whose 25th byte is a space.
gone "abcdefghijklmnopqrstuvwxyz" "bcdefghijklmnopqrstuvwxyz0" "cdefghijklmnopqrstuvwxyz01" "Hi"
=> "abcdefghijklmnopqrstuvwxy" "bcdefghijklmnopqrstuvwxyz" "cdefghijklmnopqrstuvwxyz0" "To: abcdefghijklmnopqrstuvwxyz" "From: bcdefghijklmnopqrstuvwxyz0" "Subject: cdefghijklmnopqrstuvwxyz01" "" "Hi"
gone "abcdefghijklmnopqrstuvwx z" "B" "S" "Hi"
=> "abcdefghijklmnopqrstuvwx" "B" "S" "To: abcdefghijklmnopqrstuvwx z" "" "Hi"
# A space at either end, a byte below 20h, and E3h.
gone " abcdefghijklmnopqrstuvwxyz" "abcdefghijklmnopqrstuvwxyz " "abcdefghijklmnopqrstuvwxyz\x1F" "Hi"
=> " abcdefghijklmnopqrstuvwxyz" "abcdefghijklmnopqrstuvwxyz " "abcdefghijklmnopqrstuvwxyz\x1f" "Hi"
gone "A" "B" "abcdefghijklmnopqrstuvwxyz\xE3" "Hi"
=> "A" "B" "abcdefghijklmnopqrstuvwxyz\xe3" "Hi"
# A text that would be taken for such lines, also behind empty ones.
gone "abcdefghijklmnopqrstuvwxy" "B" "S" "To: abcdefghijklmnopqrstuvwxyz" "" "Hi"
=> "abcdefghijklmnopqrstuvwxy" "B" "S" "" "To: abcdefghijklmnopqrstuvwxyz" "" "Hi"
gone "abcdefghijklmnopqrstuvwxy" "B" "S" "" "" "To: abcdefghijklmnopqrstuvwxyz" ""
=> "abcdefghijklmnopqrstuvwxy" "B" "S" "" "" "" "To: abcdefghijklmnopqrstuvwxyz" ""
gone "A" "B" "S" "" "" => "A" "B" "S" "" ""
gone "A" "B" "S" => "A" "B" "S"
read "ABCDEFGHIJKLMNOPQRSTUVWXY" "B" "S" "To: abcdefghijklmnopqrstuvwxyz" "" "Hi"
=> "abcdefghijklmnopqrstuvwxyz" "B" "S" "Hi"
read "ABCDEFGHIJKLMNOPQRSTUVWXY" "BCDEFGHIJKLMNOPQRSTUVWXYZ" "cdefghijklmnopqrstuvwxyz0" "To: abcdefghijklmnopqrstuvwxyz" "From: bcdefghijklmnopqrstuvwxyz0" "Subject: cdefghijklmnopqrstuvwxyz01" "" "" "Hi"
=> "abcdefghijklmnopqrstuvwxyz" "bcdefghijklmnopqrstuvwxyz0" "cdefghijklmnopqrstuvwxyz01" "" "Hi"
read "ABCDEFGHIJKLMNOPQRSTUVWX" "B" "S" "To: abcdefghijklmnopqrstuvwx z" ""
=> "abcdefghijklmnopqrstuvwx z" "B" "S"
# Out of order, twice, without an empty line, for another field, and for another value.
read "abcdefghijklmnopqrstuvwxy" "abcdefghijklmnopqrstuvwxy" "S" "From: abcdefghijklmnopqrstuvwxyz" "To: abcdefghijklmnopqrstuvwxyz" ""
=> "abcdefghijklmnopqrstuvwxy" "abcdefghijklmnopqrstuvwxy" "S" "From: abcdefghijklmnopqrstuvwxyz" "To: abcdefghijklmnopqrstuvwxyz" ""
read "abcdefghijklmnopqrstuvwxy" "B" "S" "To: abcdefghijklmnopqrstuvwxyz" "To: abcdefghijklmnopqrstuvwxyz" ""
=> "abcdefghijklmnopqrstuvwxy" "B" "S" "To: abcdefghijklmnopqrstuvwxyz" "To: abcdefghijklmnopqrstuvwxyz" ""
read "abcdefghijklmnopqrstuvwxy" "B" "S" "To: abcdefghijklmnopqrstuvwxyz" "Hi"
=> "abcdefghijklmnopqrstuvwxy" "B" "S" "To: abcdefghijklmnopqrstuvwxyz" "Hi"
read "abcdefghijklmnopqrstuvwxy" "B" "S" "To: abcdefghijklmnopqrstuvwxyz"
=> "abcdefghijklmnopqrstuvwxy" "B" "S" "To: abcdefghijklmnopqrstuvwxyz"
read "abcdefghijklmnopqrstuvwxy" "B" "S" "From: abcdefghijklmnopqrstuvwxyz" ""
=> "abcdefghijklmnopqrstuvwxy" "B" "S" "From: abcdefghijklmnopqrstuvwxyz" ""
read "abcdefghijklmnopqrstuvwxz" "B" "S" "To: abcdefghijklmnopqrstuvwxyz" ""
=> "abcdefghijklmnopqrstuvwxz" "B" "S" "To: abcdefghijklmnopqrstuvwxyz" ""
read "abcdefghijklmnopqrstuvwxy" "B" "S" "To:abcdefghijklmnopqrstuvwxyz" ""
=> "abcdefghijklmnopqrstuvwxy" "B" "S" "To:abcdefghijklmnopqrstuvwxyz" ""
# A value that is short, as anybody may write it.
read "ALL" "B" "S" "To: whom it may concern" "" "Hi" => "ALL" "B" "S" "To: whom it may concern" "" "Hi"
# Behind one empty line more than the text had.
read "abcdefghijklmnopqrstuvwxy" "B" "S" "" "To: abcdefghijklmnopqrstuvwxyz" "" "Hi"
=> "abcdefghijklmnopqrstuvwxy" "B" "S" "To: abcdefghijklmnopqrstuvwxyz" "" "Hi"
read "abcdefghijklmnopqrstuvwxy" "B" "S" "" "" "To: abcdefghijklmnopqrstuvwxyz" ""
=> "abcdefghijklmnopqrstuvwxy" "B" "S" "" "To: abcdefghijklmnopqrstuvwxyz" ""
read "A" "B" "S" "" "" => "A" "B" "S" "" ""
"#;

#[test]
fn long_values_go_and_come_as_lines(rt: HostRuntime) -> Result<(), Miss> {
    expect_cases(rt.alloc(), CASES, found)
}
