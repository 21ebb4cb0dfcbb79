//! Files from worked examples. A case is what it asks, and then how many bytes a file has, and its blocks.
ghost use Rattle.std.specs.Prelude.{◌↔◌, IsTrue};
ghost use Rattle.text_fields.specs.Trim.{EndsWithNone};
ghost use Rattle.qwk_blocks.specs.Header.{IsPad};

use super::files::file_of;
use super::messages::described;
use byte_lists::{Bytes, Duplicate};
use qwk_blocks::{QwkMessage, QwkMessages};
use rep_packet::{Rep, RepError, add_reply, read_rep, write_rep};
use std::alloc::{AllocError, Global};
use test_cases::{Miss, expect_cases, quoted};
use text_fields::Blank;

/// The reply packet of a short file.
fn rep_of(alloc: Global, bytes: &[u8]) -> Result<Rep, RepError> {
    if bytes.len() > 1000 {
        return Err(RepError::OutOfMemory);
    }
    read_rep(alloc, bytes)
}

/// The board id and the messages of a packet.
fn contents(alloc: Global, rep: &Rep) -> Result<String, AllocError> {
    let id = quoted(alloc, rep.bbsid.as_slice())?;
    let messages = described(alloc, rep.messages.as_slice())?;
    format!(in alloc; "{id} {messages}")
}

fn read(alloc: Global, words: &[Bytes]) -> Result<String, Miss> {
    match rep_of(alloc, file_of(alloc, words)?.as_slice()) {
        Ok(rep) => Ok(contents(alloc, &rep)?),
        Err(fault) => Ok(format!(in alloc; "{fault:?}")?),
    }
}

/// Whether a board id has no blank at its end.
fn ends_with_none(id: &[u8]) -> bool
    ensures { IsTrue result ↔ EndsWithNone IsPad id.now }
{
    match id {
        [] => true,
        [.., last] => !Blank::SpacesAndNuls.is_blank(*last),
    }
}

/// The written form of a reply packet.
fn write(alloc: Global, rep: &Rep) -> Result<Bytes, Miss> {
    let id = rep.bbsid.as_slice();
    if id.len() < 1 || id.len() > 8 || !ends_with_none(id) {
        return Err(Miss::Unreached);
    }
    let messages = rep.messages.as_slice();
    let writable = messages.iter().all(|message| message.writable());
    if !writable || rep.size() >= 1_000_000 {
        return Err(Miss::Unreached);
    }
    Ok(write_rep(alloc, rep)?)
}

/// Adds a reply, and writes the packet, which is to be the front of a file, and reads it back.
fn add_and_read(
    alloc: Global,
    rep: &mut Rep,
    message: &QwkMessage,
    file: &[u8],
) -> Result<String, Miss> {
    add_reply(rep, message.duplicate(alloc)?)?;
    let size = rep.size();
    let written = write(alloc, rep)?;
    if file.get(..size as usize) != Some(written.as_slice()) {
        return Ok(format!(in alloc; "written as {}", written.as_slice().escape_ascii())?);
    }
    *rep = rep_of(alloc, written.as_slice())
        .ok()
        .ok_or(Miss::Unreached)?;
    Ok(format!(in alloc; "{size} ")?)
}

/// Adds the replies of a file one by one to a packet without replies. What is found are the sizes of the packet, and what
/// it has at the end.
fn add_replies(alloc: Global, words: &[Bytes]) -> Result<String, Miss> {
    let file = file_of(alloc, words)?;
    let whole = rep_of(alloc, file.as_slice()).ok().ok_or(Miss::Unreached)?;
    let mut rep = Rep {
        bbsid: whole.bbsid.copy(alloc)?,
        messages: QwkMessages::new(alloc),
    };
    let mut found = format!(in alloc; "{} ", rep.size())?;
    for message in whole.messages.as_slice() {
        found.push_str(add_and_read(alloc, &mut rep, message, file.as_slice())?.as_str())?;
    }
    found.push_str(contents(alloc, &rep)?.as_str())?;
    Ok(found)
}

/// What is found of a case, which begins with what it asks.
fn found(alloc: Global, words: &[Bytes]) -> Result<String, Miss> {
    let [asked, words @ ..] = words else {
        return Err(Miss::Words);
    };
    match asked.as_slice() {
        b"file" => read(alloc, words),
        b"add" => add_replies(alloc, words),
        _ => Err(Miss::Words),
    }
}

const CASES: &str = r#"
file 128 "A       x\{120}" => "A" 0 messages
file 128 "TESTBBS8x\{120}" => "TESTBBS8" 0 messages
file 128 "AB\0 \0   x\{120}" => "AB" 0 messages
file 128 " A\0B\0\0\0\0x\{120}" => " A\x00B" 0 messages
file 128 "        x\{120}" => NoBoardId
file 128 "\0\0\0\0\0\0\0\0x\{120}" => NoBoardId
file 256 "        x\{120}" "" => NoBoardId
file 256 "A       x\{120}" "" => Fault(BadBlocks { at: 128 })
file 256 "A       x\{120}"
" 0      09-09-0101:46BOB RAY                  ANN LEE                  Hello                                1       2     \xE1\x00\x00\x01\x00 "
=> Fault(Truncated { at: 128 })
file 127 "" => Fault(Truncated { at: 0 })
file 127 "TESTBBS" => Fault(Truncated { at: 0 })
add 640 "TESTBBS"
" 0      09-09-0101:46BOB RAY                  ANN LEE                  Hello                                1       2     \xE1\x00\x00\x01\x00 "
"Thanks\xE3"
" 263    09-09-0101:46BOB RAY                  ANN LEE                  Hello                                1       2     \xE1\x07\x01\x02\x00 "
"Thanks\xE3"
=> 128 384 640 "TESTBBS" 2 messages; " \xe1 " "09-09-01" "01:46" "BOB RAY" "ANN LEE" "Hello" "" Some(0) Some(1) 0 1: "Thanks"; " \xe1 " "09-09-01" "01:46" "BOB RAY" "ANN LEE" "Hello" "" Some(263) Some(1) 263 2: "Thanks"
"#;

#[test]
fn replies_are_read_and_added(rt: HostRuntime) -> Result<(), Miss> {
    expect_cases(rt.alloc(), CASES, found)
}
