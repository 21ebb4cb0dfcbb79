//! Setup files from worked examples.
use byte_lists::Bytes;
use setup_file::{Conference, Setup, SetupError};
use std::alloc::{AllocError, Global};
use test_cases::{Miss, expect_cases, number_of, quoted};
use text_fields::add_decimal;

/// The lines of `setup.txt` of the examples.
const LINES: &str = "board: Test Board
city: Springfield
phone: 555-0100
sysop: Sam Sysop
bbsid: TESTBBS
serial: 12345
zones: 1 2
conference: 0 local p GENERAL
conference: 1 net - NETMAIL
conference: 7 local r NEWS";

fn parse(alloc: Global, bytes: &[u8]) -> Result<Setup, SetupError> {
    if bytes.len() >= 1 << 31 {
        return Err(SetupError::OutOfMemory);
    }
    Setup::parse(alloc, bytes)
}

/// How many conferences a text has, or its first fault.
fn outcome(alloc: Global, text: &[u8]) -> Result<String, AllocError> {
    let count = match parse(alloc, text) {
        Ok(setup) => Ok(setup.conference_count()),
        Err(error) => Err(error),
    };
    format!(in alloc; "{count:?}")
}

/// The example with another text in the line of this number, from 1, and this end behind each line.
fn with_line(alloc: Global, number: u32, text: &[u8], end: &[u8]) -> Result<Bytes, AllocError> {
    let mut file = Bytes::new(alloc);
    for (place, line) in LINES.split('\n').enumerate() {
        let is_other = place + 1 == number as usize;
        file.add(if is_other { text } else { line.as_bytes() })?;
        file.add(end)?;
    }
    Ok(file)
}

/// What a conference is.
fn conference_words(alloc: Global, conference: &Conference) -> Result<String, AllocError> {
    let name = quoted(alloc, conference.name.as_slice())?;
    format!(in alloc;
        "{} {:?} {} {} {name}; ",
        conference.number, conference.kind, conference.readonly, conference.private
    )
}

/// The conferences of a setup, and whether there are no more.
fn conferences_of(alloc: Global, setup: &Setup) -> Result<String, AllocError> {
    let mut found = String::new(alloc);
    for place in 0..setup.conference_count() {
        if let Some(conference) = setup.conference(place) {
            found.push_str(conference_words(alloc, conference)?.as_str())?;
        }
    }
    let more = setup.conference(setup.conference_count());
    found.push_str(if more.is_some() { "more" } else { "no more" })?;
    Ok(found)
}

/// The texts, the serial number, the zones, whether 2 and 3 are among them, and the conferences.
fn described(alloc: Global, setup: &Setup) -> Result<String, AllocError> {
    let mut found = String::new(alloc);
    for text in [
        setup.board(),
        setup.city(),
        setup.phone(),
        setup.sysop(),
        setup.bbsid(),
    ] {
        found.push_str(quoted(alloc, text.as_slice())?.as_str())?;
        found.push_str(" ")?;
    }
    let conferences = conferences_of(alloc, setup)?;
    format!(in alloc;
        "{found}{} {:?} {} {}: {conferences}",
        setup.serial(),
        setup.fields().zones.as_slice(),
        setup.has_zone(2),
        setup.has_zone(3)
    )
}

/// Reads the example with this end behind each line. What is found is the setup, of which its copy has all.
fn read_ended(alloc: Global, words: &[Bytes]) -> Result<String, Miss> {
    let [end] = words else {
        return Err(Miss::Words);
    };
    let file = with_line(alloc, 0, b"", end.as_slice())?;
    let setup = parse(alloc, file.as_slice()).ok().ok_or(Miss::Unreached)?;
    let copied = described(alloc, &setup.copy(alloc)?)?;
    let found = described(alloc, &setup)?;
    if copied != found {
        return Ok(format!(in alloc; "copied as {copied}")?);
    }
    Ok(found)
}

fn read_line(alloc: Global, words: &[Bytes]) -> Result<String, Miss> {
    let [line, text] = words else {
        return Err(Miss::Words);
    };
    let file = with_line(alloc, number_of(line.as_slice())?, text.as_slice(), b"\n")?;
    Ok(outcome(alloc, file.as_slice())?)
}

fn read(alloc: Global, words: &[Bytes]) -> Result<String, Miss> {
    let [text] = words else {
        return Err(Miss::Words);
    };
    Ok(outcome(alloc, text.as_slice())?)
}

/// The first lines of the example, and conferences of the numbers below this one, in lines 8 and on.
fn with_conferences(alloc: Global, count: u32) -> Result<Bytes, AllocError> {
    let mut file = Bytes::new(alloc);
    for line in LINES.split('\n').take(7) {
        file.add(line.as_bytes())?;
        file.add(b"\n")?;
    }
    for number in 0..count {
        file.add(b"conference: ")?;
        add_decimal(&mut file, u64::from(number))?;
        file.add(b" echo - A\n")?;
    }
    Ok(file)
}

fn read_conferences(alloc: Global, words: &[Bytes]) -> Result<String, Miss> {
    let [count, last] = words else {
        return Err(Miss::Words);
    };
    let mut file = with_conferences(alloc, number_of(count.as_slice())?)?;
    file.add(last.as_slice())?;
    Ok(outcome(alloc, file.as_slice())?)
}

/// What is found of a case, which begins with what it asks.
fn found(alloc: Global, words: &[Bytes]) -> Result<String, Miss> {
    let [asked, words @ ..] = words else {
        return Err(Miss::Words);
    };
    match asked.as_slice() {
        b"ends" => read_ended(alloc, words),
        b"line" => read_line(alloc, words),
        b"text" => read(alloc, words),
        b"last" => read_conferences(alloc, words),
        _ => Err(Miss::Words),
    }
}

const CASES: &str = r##"
# A case is the end of each line.
ends \n
=> "Test Board" "Springfield" "555-0100" "Sam Sysop" "TESTBBS" 12345 [1, 2] true false: 0 Local false true "GENERAL"; 1 Net false false "NETMAIL"; 7 Local true false "NEWS"; no more
ends \r\n
=> "Test Board" "Springfield" "555-0100" "Sam Sysop" "TESTBBS" 12345 [1, 2] true false: 0 Local false true "GENERAL"; 1 Net false false "NETMAIL"; 7 Local true false "NEWS"; no more
ends "  \n\n# \n"
=> "Test Board" "Springfield" "555-0100" "Sam Sysop" "TESTBBS" 12345 [1, 2] true false: 0 Local false true "GENERAL"; 1 Net false false "NETMAIL"; 7 Local true false "NEWS"; no more
# A case is the number of a line from 1, and what stands there in place of the example's. Behind lines that break one rule
# come those that break several, and those that are on the edge.
line 1 "Board: A" => Err(Line { line: 1, rule: Key })
line 1 " board: A" => Err(Line { line: 1, rule: Key })
line 1 "board : A" => Err(Line { line: 1, rule: Key })
line 1 "board: A\x1f" => Err(Line { line: 1, rule: Text })
line 2 "phone: A" => Err(Line { line: 2, rule: Key })
line 2 "city: A\tB" => Err(Line { line: 2, rule: Text })
line 2 "city:1234567890123456789012345678901234567890123456789012345678901" => Err(Line { line: 2, rule: Text })
line 3 "phone: \x7f" => Err(Line { line: 3, rule: Text })
line 4 "sysop:" => Err(Line { line: 4, rule: Text })
line 4 "sysop: Sam \x22Sysop" => Err(Line { line: 4, rule: Text })
line 4 "sysop: ABCDEFGHIJKLMNOPQRSTUVWXYZ" => Err(Line { line: 4, rule: Text })
line 5 "bbsid: ABCDEFGHI" => Err(Line { line: 5, rule: Id })
line 5 "bbsid:" => Err(Line { line: 5, rule: Id })
line 5 "bbsid: TEST BBS" => Err(Line { line: 5, rule: Id })
line 6 "serial:" => Err(Line { line: 6, rule: Number })
line 6 "serial: 123456" => Err(Line { line: 6, rule: Number })
line 6 "serial: 1 2" => Err(Line { line: 6, rule: Number })
line 7 "zones 1" => Err(Line { line: 7, rule: Key })
line 7 "zones: 0" => Err(Line { line: 7, rule: Zones })
line 7 "zones: 32768" => Err(Line { line: 7, rule: Zones })
line 7 "zones: 000001" => Err(Line { line: 7, rule: Zones })
line 7 "zones: 1 2 2" => Err(Line { line: 7, rule: Zones })
line 7 "zones: 2 1" => Err(Line { line: 7, rule: Zones })
line 7 "zones: 1 x" => Err(Line { line: 7, rule: Zones })
line 7 "zones: 1 2 3 4 5 6 7 8 9 10 11 12 13 14 15 16 17" => Err(Line { line: 7, rule: Zones })
line 8 "Conference: 0 local p A" => Err(Line { line: 8, rule: Key })
line 8 "conference:" => Err(Line { line: 8, rule: Number })
line 8 "conference: 65536 local p A" => Err(Line { line: 8, rule: Number })
line 8 "conference: 000001 local p A" => Err(Line { line: 8, rule: Number })
line 8 "conference: 0" => Err(Line { line: 8, rule: Kind })
line 8 "conference: 0 Local p A" => Err(Line { line: 8, rule: Kind })
line 8 "conference: 0 local" => Err(Line { line: 8, rule: Rules })
line 8 "conference: 0 local pr A" => Err(Line { line: 8, rule: Rules })
line 8 "conference: 0 local p " => Err(Line { line: 8, rule: Name })
line 8 "conference: 0 local p ABCDEFGHIJKLMN" => Err(Line { line: 8, rule: Name })
line 8 "conference: 0 local p A\x1fB" => Err(Line { line: 8, rule: Name })
line 9 "conference: 0 net - A" => Err(Line { line: 9, rule: Order })
line 10 "conference: 0 net - A" => Err(Line { line: 10, rule: Order })
line 9 "conferenc: x any q \x01" => Err(Line { line: 9, rule: Key })
line 9 "conference: x any q \x01" => Err(Line { line: 9, rule: Number })
line 9 "conference: 0 any q \x01" => Err(Line { line: 9, rule: Kind })
line 9 "conference: 0 echo q \x01" => Err(Line { line: 9, rule: Rules })
line 9 "conference: 0 echo rp \x01" => Err(Line { line: 9, rule: Name })
line 9 "conference: 0 echo rp A" => Err(Line { line: 9, rule: Order })
line 1 "board:" => Ok(3)
line 2 "city:123456789012345678901234567890123456789012345678901234567890" => Ok(3)
line 4 "sysop: ABCDEFGHIJKLMNOPQRSTUVWXY" => Ok(3)
line 5 "bbsid: aZ09bY18" => Ok(3)
line 6 "serial: 00001 " => Ok(3)
line 7 "zones:" => Ok(3)
line 7 "zones: 1 2 3 4 5 6 7 8 9 10 11 12 13 14 15 16" => Ok(3)
line 7 "zones:00001   32767 " => Ok(3)
line 10 "conference:  65535   echo   rp   AB  CDEFGH \x22 " => Ok(3)
# The first failing line counts.
text "Board: \x01\nCity: \x01\n" => Err(Line { line: 1, rule: Key })
text "# \x01\n\nboard: \x01\ncity: \x01\n" => Err(Line { line: 3, rule: Text })
text "" => Err(Line { line: 1, rule: Missing })
text "\n#\n" => Err(Line { line: 3, rule: Missing })
text "board: A\ncity: B" => Err(Line { line: 3, rule: Missing })
text " # \n" => Err(Line { line: 1, rule: Key })
# A case is how many conferences there are, and the line behind them.
last 64 "" => Ok(64)
last 0 "" => Err(Line { line: 8, rule: Missing })
last 65 "" => Err(Line { line: 72, rule: Many })
last 64 "conference: x" => Err(Line { line: 72, rule: Many })
last 64 "conf: x" => Err(Line { line: 72, rule: Key })
last 0 "conference: 0 local p A\r" => Err(Line { line: 8, rule: Name })
"##;

#[test]
fn setup_files_are_read(rt: HostRuntime) -> Result<(), Miss> {
    expect_cases(rt.alloc(), CASES, found)
}
