//! Sheets from worked examples. A case is what it asks, and then a sheet.
use byte_lists::Bytes;
use import_sheet::{Sheet, SheetError, Sheets, read_sheet};
use std::alloc::{AllocError, Global};
use test_cases::{Miss, expect_cases, quoted};

fn sheets_of(alloc: Global, bytes: &[u8]) -> Result<Sheets, SheetError> {
    if bytes.len() >= 1 << 31 {
        return Err(SheetError::OutOfMemory);
    }
    read_sheet(alloc, bytes)
}

/// Adds what a message has: its sender, its receiver, its subject, its id, that of the message it replies to, its body,
/// its date, and whether it is private.
fn add_sheet(alloc: Global, found: &mut String, sheet: &Sheet) -> Result<(), AllocError> {
    for text in [
        &sheet.from,
        &sheet.to,
        &sheet.subject,
        &sheet.msgid,
        &sheet.reply,
        &sheet.body,
    ] {
        found.push_str(quoted(alloc, text.as_slice())?.as_str())?;
        found.push_str(" ")?;
    }
    let rest = format!(in alloc; "{:?} {}", sheet.date, sheet.private)?;
    found.push_str(rest.as_str())
}

/// How many messages there are, and what each has.
fn described(alloc: Global, sheets: &Sheets) -> Result<String, AllocError> {
    let mut found = format!(in alloc; "{} messages", sheets.len())?;
    for sheet in sheets.as_slice() {
        found.push_str("; ")?;
        add_sheet(alloc, &mut found, sheet)?;
    }
    Ok(found)
}

/// Reads a sheet. What is found are its messages, by a copy of them, or its first fault.
fn read(alloc: Global, words: &[Bytes]) -> Result<String, Miss> {
    let [text] = words else {
        return Err(Miss::Words);
    };
    match sheets_of(alloc, text.as_slice()) {
        Ok(sheets) => Ok(described(alloc, &sheets.copy(alloc)?)?),
        Err(error) => Ok(format!(in alloc; "{error:?}")?),
    }
}

/// Reads a sheet. What is found is how many bytes the body of its first message has.
fn measure(alloc: Global, words: &[Bytes]) -> Result<String, Miss> {
    let [text] = words else {
        return Err(Miss::Words);
    };
    let sheets = sheets_of(alloc, text.as_slice())
        .ok()
        .ok_or(Miss::Unreached)?;
    let sheet = sheets.get(0).ok_or(Miss::Unreached)?;
    Ok(format!(in alloc; "{}", sheet.body.as_slice().len())?)
}

/// What is found of a case, which begins with what it asks.
fn found(alloc: Global, words: &[Bytes]) -> Result<String, Miss> {
    let [asked, words @ ..] = words else {
        return Err(Miss::Words);
    };
    match asked.as_slice() {
        b"read" => read(alloc, words),
        b"body" => measure(alloc, words),
        _ => Err(Miss::Words),
    }
}

const CASES: &str = r#"
# Sheet H of the examples, the same twice, every header, and sheets of other counts of messages.
read "From: Bob Ray\nTo: All\nSubject: Hello\n\nFirst line\n.\n"
=> 1 messages; "Bob Ray" "All" "Hello" "" "" "First line\r" None false
read "From: Bob Ray\nTo: All\nSubject: Hello\n\nFirst line\n.\nFrom: Bob Ray\nTo: All\nSubject: Hello\n\nFirst line\n.\n"
=> 2 messages; "Bob Ray" "All" "Hello" "" "" "First line\r" None false; "Bob Ray" "All" "Hello" "" "" "First line\r" None false
read "Private:yes\r\nReply: 0.1.TESTBBS \r\nMsgid:  0.2.TESTBBS\r\nDate: 4294967295\r\nTo:B\r\nFrom: A B \r\nSubject:\r\n\r\n..x\r\n\r\n...\r\n.\r\n"
=> 1 messages; "A B" "B" "" "0.2.TESTBBS" "0.1.TESTBBS" ".x\r\r..\r" Some(4294967295) true
read "" => 0 messages
read "\r\n\n\r\n" => 0 messages
read "\n\nFrom: A\nTo: B\n\n.\n\r\n\nTo: A\nFrom: B\n\nx\n.\n\n"
=> 2 messages; "A" "B" "" "" "" "" None false; "B" "A" "" "" "" "x\r" None false
read "From: A\nTo: B\nPrivate: no\n\n."
=> 1 messages; "A" "B" "" "" "" "" None false
# Sheets whose first failing line breaks a rule, those of which two lines break one, headers of the greatest length and
# longer ones, and bodies that are too long.
read "From: A\nSubject: x\n\n" => Line { line: 3, rule: Missing }
read "To: A\n\nTo: B\n\n" => Line { line: 2, rule: Missing }
read "From: A\nFrom: B\n" => Line { line: 2, rule: Twice }
read "From: A\nTo: B\n\na\n" => Line { line: 5, rule: End }
read "From: A" => Line { line: 2, rule: End }
read "From: A\nTo: B\n\n" => Line { line: 4, rule: End }
read " " => Line { line: 1, rule: Header }
read "\r" => Line { line: 1, rule: Header }
read "\n\nfrom: A\nto: B\n" => Line { line: 3, rule: Header }
read "From: A\nTo : B\nFrom: B\n" => Line { line: 2, rule: Header }
read "From:\nTo:\n" => Line { line: 1, rule: From }
read "From: A\x1f\nFrom:\n" => Line { line: 1, rule: From }
read "From: A\nTo:  \nTo:\n" => Line { line: 2, rule: To }
read "To: B\nTo:\nTo: C\n" => Line { line: 2, rule: Twice }
read "Subject: a\tb\nSubject: \x01\n" => Line { line: 1, rule: Subject }
read "Date:\nDate: x\n" => Line { line: 1, rule: Date }
read "Date: 4294967296\n" => Line { line: 1, rule: Date }
read "Date: 00000000001\n" => Line { line: 1, rule: Date }
read "Date: 1\nDate: x\n" => Line { line: 2, rule: Twice }
read "Msgid:\nMsgid:\n" => Line { line: 1, rule: Msgid }
read "Reply: \nReply:\n" => Line { line: 1, rule: Reply }
read "Private: Yes\nPrivate: NO\n" => Line { line: 1, rule: Private }
read "From: A\nTo: B\n\na\rb\nc\rd\n" => Line { line: 4, rule: Byte }
read "From: A\nTo: B\n\n.\r" => Line { line: 4, rule: Byte }
read "From: A\nTo: B\n\n.\n\nTo: A\nfrom: B\n" => Line { line: 7, rule: Header }
read "x\ny\n" => Line { line: 1, rule: Header }
read "From: A\nFrom: B\nFrom: C\n" => Line { line: 2, rule: Twice }
read "From:\nTo: B\n\n.\nFrom:\n" => Line { line: 1, rule: From }
read "From: A\nTo:\nTo:\n" => Line { line: 2, rule: To }
read "Subject: \x01\nSubject: \x02\n" => Line { line: 1, rule: Subject }
read "Date: x\nDate: y\n" => Line { line: 1, rule: Date }
read "Msgid:\nMsgid:\n" => Line { line: 1, rule: Msgid }
read "Reply:\nReply:\n" => Line { line: 1, rule: Reply }
read "Private: x\nPrivate: y\n" => Line { line: 1, rule: Private }
read "From: A\n\nTo: B\n\n" => Line { line: 2, rule: Missing }
read "From: A\nTo: B\n\na\rb\nc\rd\n" => Line { line: 4, rule: Byte }
read "From: x\{36}" => Line { line: 2, rule: End }
read "From: x\{37}" => Line { line: 1, rule: From }
read "To: x\{36}" => Line { line: 2, rule: End }
read "To: x\{37}" => Line { line: 1, rule: To }
read "Subject: x\{72}" => Line { line: 2, rule: End }
read "Subject: x\{73}" => Line { line: 1, rule: Subject }
read "Msgid: x\{80}" => Line { line: 2, rule: End }
read "Msgid: x\{81}" => Line { line: 1, rule: Msgid }
read "Reply: x\{80}" => Line { line: 2, rule: End }
read "Reply: x\{81}" => Line { line: 1, rule: Reply }
read "From: A\nTo: B\n\nx\{16384}\n.\n" => Line { line: 4, rule: Length }
read "From: A\nTo: B\n\n\n\{16385}.\n" => Line { line: 16388, rule: Length }
read "From: A\nTo: B\n\n\n\{16400}" => Line { line: 16388, rule: Length }
# The longest bodies.
body "From: A\nTo: B\n\nx\{16383}\n.\n" => 16384
body "From: A\nTo: B\n\n\n\{16384}.\n" => 16384
"#;

#[test]
fn sheets_are_read(rt: HostRuntime) -> Result<(), Miss> {
    expect_cases(rt.alloc(), CASES, found)
}
