//! What is read of packets.
use super::samples::messages_of;
use byte_lists::{Bytes, Lines};
use fts_packet::{FtsMessage, FtsPacket};
use std::alloc::{AllocError, Global};
use test_cases::{Miss, expect_cases, quoted};

/// Adds a text, in quotes.
fn add_quoted(alloc: Global, found: &mut String, text: &Bytes) -> Result<(), AllocError> {
    found.push_str(" ")?;
    found.push_str(quoted(alloc, text.as_slice())?.as_str())
}

/// How many lines there are, and these.
fn lines_found(alloc: Global, lines: &Lines) -> Result<String, AllocError> {
    let mut found = format!(in alloc; "{} lines", lines.len())?;
    for line in lines.as_slice() {
        add_quoted(alloc, &mut found, line)?;
    }
    Ok(found)
}

/// The date, the two addresses and the names of a message.
fn header_found(alloc: Global, message: &FtsMessage) -> Result<String, AllocError> {
    let mut found = quoted(alloc, &message.date)?;
    for text in [
        &message.origin,
        &message.destination,
        &message.to,
        &message.from,
        &message.subject,
    ] {
        add_quoted(alloc, &mut found, text)?;
    }
    Ok(found)
}

/// The headers of messages.
fn headers_found(alloc: Global, packet: &FtsPacket) -> Result<String, AllocError> {
    let mut found = String::new(alloc);
    for message in packet.as_slice() {
        found.push_str(header_found(alloc, message)?.as_str())?;
        found.push_str("; ")?;
    }
    found.push_str("end")?;
    Ok(found)
}

/// The headers of a copy of the packet's messages.
fn read_headers(alloc: Global, words: &[Bytes]) -> Result<String, Miss> {
    let packet = messages_of(alloc, words)?.copy(alloc)?;
    Ok(headers_found(alloc, &packet)?)
}

/// The lines of the packet's first message.
fn read_lines(alloc: Global, words: &[Bytes]) -> Result<String, Miss> {
    let packet = messages_of(alloc, words)?;
    let message = packet.get(0).ok_or(Miss::Unreached)?;
    Ok(lines_found(alloc, &message.lines)?)
}

/// What is found of a case, which begins with what it asks.
fn found(alloc: Global, words: &[Bytes]) -> Result<String, Miss> {
    let [asked, words @ ..] = words else {
        return Err(Miss::Words);
    };
    match asked.as_slice() {
        b"headers" => read_headers(alloc, words),
        b"lines" => read_lines(alloc, words),
        _ => Err(Miss::Words),
    }
}

const CASES: &str = r#"
# Headers.
headers header numbers date names echo \0\0
=> "09 Sep 01  01:46:40\x00" "2:5020/400" "2:5020/1" "Ann Lee" "Joe" "Hi"; end
headers header numbers date names echo numbers "any twenty bytes....b\0\0\0\0"
=> "09 Sep 01  01:46:40\x00" "2:5020/400" "2:5020/1" "Ann Lee" "Joe" "Hi"; "any twenty bytes...." "2:5020/400" "2:5020/1" "b" "" ""; end
headers header \x02\0\xFF\x7F\0\0\xFF\x7F\0\0aacc date names \0
=> "09 Sep 01  01:46:40\x00" "2:32767/32767" "2:0/0" "Ann Lee" "Joe" "Hi"; end
headers header \x02\0\0\x80\x01\0\x01\0\x01\0aacc date names \0
=> "09 Sep 01  01:46:40\x00" "" "2:1/1" "Ann Lee" "Joe" "Hi"; end
headers header \x02\0\x01\0\x01\0\x01\0\xFF\xFFaacc date names \0
=> "09 Sep 01  01:46:40\x00" "2:1/1" "" "Ann Lee" "Joe" "Hi"; end
headers h\{18}\x02\0 h\{14}\0\x80\0\0 h\{20} numbers date names \0
=> "09 Sep 01  01:46:40\x00" "" "0:5020/1" "Ann Lee" "Joe" "Hi"; end
# Lines of texts.
lines header numbers date names \0 => 0 lines
lines header numbers date names \n\n\0 => 0 lines
lines header numbers date names \r\0 => 1 lines ""
lines header numbers date names \r\n\r\n\0 => 2 lines "" ""
lines header numbers date names a\0 => 1 lines "a"
lines header numbers date names a\r\0 => 1 lines "a"
lines header numbers date names a\r\n\0 => 1 lines "a"
lines header numbers date names a\nb\rc\0 => 2 lines "ab" "c"
lines header numbers date names a\r\nb\n\0 => 2 lines "a" "b"
lines header numbers date names soft\x8Dend\r\0 => 1 lines "soft\x8dend"
lines header numbers date names "\x01PID: x\r tail \0" => 2 lines "\x01PID: x" " tail "
lines header numbers date names echo => 3 lines "AREA:FIDO" "\x01MSGID: 2:5020/400 1" "Hello"
"#;

#[test]
fn packets_are_read(rt: HostRuntime) -> Result<(), Miss> {
    expect_cases(rt.alloc(), CASES, found)
}
