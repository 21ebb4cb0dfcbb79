//! What becomes of packed messages. A case begins with what is asked of it, `draft`, `place`, `ids` or `written`, and the
//! conferences of the board, `net`, `echo` or `all`.
use super::samples::messages_of;
use byte_lists::Bytes;
use fts_packet::{FtsPacket, TossDraft, TossRule, toss_draft};
use jam_records::Message;
use setup_file::{Setup, SetupError};
use std::alloc::{AllocError, Global};
use test_cases::{Miss, expect_cases, quoted};

/// The moment at which messages are tossed.
const NOW: u32 = 1_100_000_000;

/// A setup up to its conferences, and the first of these.
const BOARD: &str = "board: Test Board
city: Springfield
phone: 555-0100
sysop: Sam Sysop
bbsid: TESTBBS
serial: 12345
zones: 1 2
conference: 0 local p GENERAL
";

/// Net conferences.
const NET: &str = "conference: 1 net - NETMAIL
conference: 2 net - SECOND
";

/// A local conference, and two echo conferences of one name.
const ECHO: &str = "conference: 7 local r NEWS
conference: 9 echo - FIDO
conference: 10 echo - fido
";

/// The setup of a text.
fn parse(alloc: Global, text: &[u8]) -> Result<Setup, SetupError> {
    if text.len() >= 1 << 31 {
        return Err(SetupError::OutOfMemory);
    }
    Setup::parse(alloc, text)
}

/// The setup with the conferences that a word names.
fn setup(alloc: Global, word: &[u8]) -> Result<Setup, Miss> {
    let (net, echo) = match word {
        b"net" => (NET, ""),
        b"echo" => ("", ECHO),
        b"all" => (NET, ECHO),
        _ => return Err(Miss::Words),
    };
    let mut text = Bytes::from_slice(alloc, BOARD.as_bytes())?;
    text.add(net.as_bytes())?;
    text.add(echo.as_bytes())?;
    parse(alloc, text.as_slice()).ok().ok_or(Miss::Unreached)
}

/// What becomes of the first message of a packet on a board of this setup.
fn toss_first(alloc: Global, setup: &Setup, packet: &FtsPacket) -> Result<TossDraft, Miss> {
    let message = packet.get(0).ok_or(Miss::Unreached)?;
    Ok(toss_draft(alloc, setup, message, NOW)?)
}

/// The same where words name the conferences and the parts of the packet.
fn toss(alloc: Global, conferences: &[u8], parts: &[Bytes]) -> Result<TossDraft, Miss> {
    let packet = messages_of(alloc, parts)?;
    let setup = setup(alloc, conferences)?;
    toss_first(alloc, &setup, &packet)
}

fn refused(alloc: Global, rule: TossRule) -> Result<String, AllocError> {
    format!(in alloc; "refused {}", rule.word().escape_ascii())
}

/// Adds a text of a draft with its name.
fn add_text(alloc: Global, found: &mut String, name: &str, text: &Bytes) -> Result<(), AllocError> {
    found.push_str(name)?;
    found.push_str(quoted(alloc, text.as_slice())?.as_str())
}

/// The moments and the marks of a draft.
fn state_found(alloc: Global, draft: &Message) -> Result<String, AllocError> {
    format!(in alloc;
        "written {} received {} processed {} local {} private {} seen {} deleted {}",
        draft.written,
        draft.received,
        draft.processed,
        draft.local,
        draft.private,
        draft.seen,
        draft.deleted
    )
}

/// Adds the texts of a draft.
fn add_texts(alloc: Global, found: &mut String, draft: &Message) -> Result<(), AllocError> {
    for (name, text) in [
        (" from ", &draft.from),
        (" to ", &draft.to),
        (" subject ", &draft.subject),
        (" origin ", &draft.origin),
        (" destination ", &draft.destination),
        (" msgid ", &draft.msgid),
        (" replyid ", &draft.replyid),
        (" body ", &draft.body),
    ] {
        add_text(alloc, found, name, text)?;
    }
    Ok(())
}

/// The place of a draft, and all that it has.
fn drafted(alloc: Global, place: u8, draft: &Message) -> Result<String, AllocError> {
    let state = state_found(alloc, draft)?;
    let mut found = format!(in alloc; "{place} {state}")?;
    add_texts(alloc, &mut found, draft)?;
    Ok(found)
}

/// The msgid and the replyid of a draft.
fn ids(alloc: Global, draft: &Message) -> Result<String, AllocError> {
    let (msgid, replyid) = (draft.msgid.as_slice(), draft.replyid.as_slice());
    format!(in alloc;
        "\"{}\" \"{}\"",
        msgid.escape_ascii(),
        replyid.escape_ascii()
    )
}

/// What a case asks of a draft: all of it, its ids, when it was written, or its place.
fn told(alloc: Global, asked: &[u8], place: u8, draft: &Message) -> Result<String, AllocError> {
    match asked {
        b"draft" => drafted(alloc, place, draft),
        b"ids" => ids(alloc, draft),
        b"written" => format!(in alloc; "{}", draft.written),
        _ => format!(in alloc; "place {place}"),
    }
}

/// That of what becomes of a message, or the rule that refuses it.
fn outcome(alloc: Global, asked: &[u8], tossed: &TossDraft) -> Result<String, AllocError> {
    match tossed {
        TossDraft::Post { place, message } => told(alloc, asked, *place, message),
        TossDraft::Refused(rule) => refused(alloc, *rule),
    }
}

fn toss_case(alloc: Global, words: &[Bytes]) -> Result<String, Miss> {
    let [asked, conferences, parts @ ..] = words else {
        return Err(Miss::Words);
    };
    let tossed = toss(alloc, conferences.as_slice(), parts)?;
    Ok(outcome(alloc, asked.as_slice(), &tossed)?)
}

const CASES: &str = r#"
# What a message becomes, with all that is kept of it.
draft echo header numbers date names echo \0\0
=> 2 written 1000000000 received 0 processed 1100000000 local false private false seen false deleted false from "Joe" to "Ann Lee" subject "Hi" origin "2:5020/400" destination "" msgid "2:5020/400 1" replyid "" body "Hello\r"
draft all header numbers date names
"\x01INTL 2:5020/1 2:5020/400\r\x01REPLY:  1:1/1 a \r\rHi\rSEEN-BY: 1/1\r\0"
=> 1 written 1000000000 received 0 processed 1100000000 local false private true seen false deleted false from "Joe" to "Ann Lee" subject "Hi" origin "2:5020/400" destination "2:5020/1" msgid "" replyid "1:1/1 a" body "\rHi\rSEEN-BY: 1/1\r"
# The place that takes a message, or the rule that refuses it.
place net header numbers date names \0 => place 1
place net header numbers date names Hi\rAREA:FIDO\r\0 => place 1
place net header numbers date names area:FIDO\r\0 => place 1
place net header numbers date names \rAREA:FIDO\r\0 => place 1
place net header numbers date names \x01PID\rAREA:FIDO\r\0 => place 1
place net header numbers date names AREA:FIDO\r\0 => refused area
place net header numbers date names AREA:NETMAIL\r\0 => refused area
place echo header numbers date names \0 => refused net
place echo header numbers date names AREA:FIDO\0 => place 2
place echo header numbers date names "AREA:  fIdO \rx\0" => place 2
place echo header numbers date names \nAREA:FIDO\r\0 => place 2
place all header numbers date names AREA:FIDO\0 => place 4
place echo header numbers date names AREA:\0 => refused area
place echo header numbers date names "AREA: \r\0" => refused area
place echo header numbers date names AREA:GENERAL\r\0 => refused area
place echo header numbers date names AREA:NEWS\r\0 => refused area
place echo header numbers date names AREA:FIDOFIDOFIDOFI\r\0 => refused area
# The first rule refuses. A name of one space is a name. A body is counted with the ends of its lines, and without kludge
# lines.
place echo header numbers date \0\0\x01\0 AREA:X\0 => refused area
place echo header numbers date \0\0\x01\0 \0 => refused net
place echo header numbers date \0\0\x01\0 AREA:FIDO\0 => refused to
place echo header numbers date a\x1Fb\0\0\0 AREA:FIDO\0 => refused to
place echo header numbers date a\0\0\x01\0 AREA:FIDO\0 => refused from
place echo header numbers date a\0a\nb\0\x01\0 AREA:FIDO\0 => refused from
place echo header numbers date a\0b\0a\tb\0 AREA:FIDO\0 => refused subject
place echo header numbers date a\0b\0a\tb\0 AREA:FIDO\rx\{16384}\0 => refused subject
place echo header numbers date " \0 \0\0" AREA:FIDO\0 => place 2
place echo header numbers date names AREA:FIDO\rx\{16383}\0 => place 2
place echo header numbers date names AREA:FIDO\rx\{16384}\0 => refused length
place echo header numbers date names AREA:FIDO\r\rx\{16383}\0 => refused length
place echo header numbers date names AREA:FIDO\r\x01x\{20000}\0 => place 2
# The msgid and the replyid, of kludge lines.
ids net header numbers date names "\x01MSGID:  a b \r\0" => "a b" ""
ids net header numbers date names "x\r\x01REPLY: r\r\x01MSGID: m\0" => "m" "r"
ids net header numbers date names "\x01MSGID: a\r\x01MSGID: b\r\0" => "a" ""
ids net header numbers date names "\x01MSGID:a\r\x01MSGID: b\r\0" => "b" ""
ids net header numbers date names "\x01MSGID: \r\x01MSGID: b\r\0" => "" ""
ids net header numbers date names "\x01MSGID: a\tb\r\x01MSGID: b\r\0" => "" ""
ids net header numbers date names "\x01msgid: a\r\x01Reply: b\r\0" => "" ""
ids net header numbers date names "MSGID: a\r \x01REPLY: b\r\0" => "" ""
ids net header numbers date names "\x01MSGID: a\n\r\0" => "a" ""
ids net header numbers date names "\x01REPLY: " x\{80}\0
=> "" "xxxxxxxxxxxxxxxxxxxxxxxxxxxxxxxxxxxxxxxxxxxxxxxxxxxxxxxxxxxxxxxxxxxxxxxxxxxxxxxx"
ids net header numbers date names "\x01REPLY: " x\{81}\0 => "" ""
# When a message was written. A date that doesn't read gives the moment of the toss.
written net header numbers "09 Sep 01  01:46:40\0" names \0 => 1000000000
written net header numbers " 9 Sep 01  01:46:40\0" names \0 => 1000000000
written net header numbers "31 Dec 69  23:59:59\0" names \0 => 3155759999
written net header numbers "29 Feb 00  00:00:00\0" names \0 => 951782400
written net header numbers "29 Feb 01  00:00:00\0" names \0 => 1100000000
written net header numbers " 0 Sep 01  01:46:40\0" names \0 => 1100000000
written net header numbers "9  Sep 01  01:46:40\0" names \0 => 1100000000
written net header numbers "09 SEP 01  01:46:40\0" names \0 => 1100000000
written net header numbers "09 Sep 01 01:46:40 \0" names \0 => 1100000000
written net header numbers "09-Sep-01  01:46:40\0" names \0 => 1100000000
written net header numbers "09 Sep 01  24:00:00\0" names \0 => 1100000000
written net header numbers "09 Sep 01  01:46:60\0" names \0 => 1100000000
written net header numbers "09 Sep 01   1:46:40\0" names \0 => 1100000000
written net header numbers "09 Sep 01  01:46:40 " names \0 => 1100000000
written net header numbers "Sun  9 Sep 01 01:46\0" names \0 => 1100000000
# Each month.
written net header numbers "01 Jan 70  00:00:01\0" names \0 => 1
written net header numbers "01 Feb 70  00:00:00\0" names \0 => 2678400
written net header numbers "01 Mar 70  00:00:00\0" names \0 => 5097600
written net header numbers "01 Apr 70  00:00:00\0" names \0 => 7776000
written net header numbers "01 May 70  00:00:00\0" names \0 => 10368000
written net header numbers "01 Jun 70  00:00:00\0" names \0 => 13046400
written net header numbers "01 Jul 70  00:00:00\0" names \0 => 15638400
written net header numbers "01 Aug 70  00:00:00\0" names \0 => 18316800
written net header numbers "01 Sep 70  00:00:00\0" names \0 => 20995200
written net header numbers "01 Oct 70  00:00:00\0" names \0 => 23587200
written net header numbers "01 Nov 70  00:00:00\0" names \0 => 26265600
written net header numbers "01 Dec 70  00:00:00\0" names \0 => 28857600
"#;

#[test]
fn mail_is_drafted_or_refused(rt: HostRuntime) -> Result<(), Miss> {
    expect_cases(rt.alloc(), CASES, toss_case)
}

#[test]
fn the_last_rules_have_words(rt: HostRuntime) {
    let (dupe, full) = (TossRule::Dupe.word(), TossRule::Full.word());
    assert!(&rt; dupe == b"dupe".as_slice() && full == b"full".as_slice());
}
