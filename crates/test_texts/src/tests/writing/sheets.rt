use super::{NOW, all_described, fill_control, no_replies, packets};
use byte_lists::Bytes;
use import_sheet::{Sheet, Sheets};
use offline_writer::compose;
use qwk_control::Control;
use rep_packet::Rep;
use std::alloc::{AllocError, Global};
use test_cases::{Miss, expect_cases, number_of};
use text_fields::split_at_byte;

/// What a user composes, and of what.
#[derive(Drop)]
struct Desk {
    control: Control,
    sheets: Sheets,
    rep: Rep,
}

/// One with empty packets and without entries.
fn empty_desk(alloc: Global) -> Desk {
    Desk {
        control: packets::control(alloc),
        sheets: Sheets::new(alloc),
        rep: no_replies(alloc),
    }
}

/// An entry without texts.
fn empty_entry(alloc: Global, private: bool) -> Sheet {
    Sheet {
        from: Bytes::new(alloc),
        to: Bytes::new(alloc),
        subject: Bytes::new(alloc),
        date: Some(1),
        msgid: Bytes::new(alloc),
        reply: Bytes::new(alloc),
        private,
        body: Bytes::new(alloc),
    }
}

/// Sends an entry to Ann.
fn fill(entry: &mut Sheet, subject: &[u8], body: &[u8]) -> Result<(), AllocError> {
    entry.from.add(b"Somebody else")?;
    entry.to.add(b"Ann")?;
    entry.subject.add(subject)?;
    entry.body.add(body)
}

/// Adds the entry of a word, which is `private` or `public`, the subject and the body.
fn add_entry(alloc: Global, sheets: &mut Sheets, word: &[u8]) -> Result<(), Miss> {
    let (kind, texts) = split_at_byte(word, b'|').ok_or(Miss::Words)?;
    let (subject, body) = split_at_byte(texts, b'|').ok_or(Miss::Words)?;
    let mut entry = empty_entry(alloc, kind == b"private".as_slice());
    fill(&mut entry, subject, body)?;
    sheets.add(entry)?;
    Ok(())
}

/// The packet with the messages of a sheet to a conference, or why there are none.
fn composed(alloc: Global, desk: &mut Desk, conference: u16) -> Result<String, Miss> {
    if desk.sheets.len() > 100 {
        return Err(Miss::Words);
    }
    match compose(
        alloc,
        &desk.control,
        conference,
        &desk.sheets,
        &mut desk.rep,
        NOW,
    ) {
        Ok(()) => Ok(all_described(alloc, &desk.rep)?),
        Err(error) => Ok(format!(in alloc; "{error:?}")?),
    }
}

/// Composes the messages of a case.
fn compose_on(alloc: Global, desk: &mut Desk, words: &[Bytes]) -> Result<String, Miss> {
    let [conference, entries @ ..] = words else {
        return Err(Miss::Words);
    };
    let conference = u16::try_from(number_of(conference.as_slice())?);
    let conference = conference.ok().ok_or(Miss::Words)?;
    desk.rep.bbsid.add(b"TESTBBS")?;
    fill_control(alloc, &mut desk.control, b"ANN LEE")?;
    for entry in entries {
        add_entry(alloc, &mut desk.sheets, entry.as_slice())?;
    }
    composed(alloc, desk, conference)
}

fn compose_case(alloc: Global, words: &[Bytes]) -> Result<String, Miss> {
    compose_on(alloc, &mut empty_desk(alloc), words)
}

/// A case is a conference and entries.
const CASES: &str = r#"
1 public|One|Ann@2:5020/400.1\rHi\r private|1234567890123456789012345|\r\rlast
=> 2 messages; " \xe1 " 09-09-01 01:46 "Ann" "ANN LEE" "One" Some(1) Some(0) 1 1 2; "+\xe1 " 09-09-01 01:46 "Ann" "ANN LEE" "1234567890123456789012345" Some(1) Some(0) 1 2 3
0 public|One|Ann@2:5020/400.1\rHi\r private|1234567890123456789012345|\r\rlast public|1234567890123456789012345\xE3| public||\xE3\r
=> Text(3)
5 public|One|Ann@2:5020/400.1\rHi\r private|1234567890123456789012345|\r\rlast public|1234567890123456789012345\xE3| public||\xE3\r
=> NoConference
# No entries are no refusal.
0 => 0 messages
"#;

#[test]
fn entries_become_messages(rt: HostRuntime) -> Result<(), Miss> {
    expect_cases(rt.alloc(), CASES, compose_case)
}
