//! Runs of the commands by which a sysop changes messages: `import` and `kill`.
use byte_lists::Bytes;
use door_outside::FileId;
use memory_outside::MemoryHost;
use std::alloc::Global;
use test_runs::{Miss, copies, expect_part, expect_transcripts, played, put_data};

/// The files of the conference 0 after the sheet given twice. In a net conference its message is private.
const IMPORTED: &str = r#"
* board B
> import 0 two
imported 2 into 0
> import 1 one
imported 1 into 1
* data 2 from 0 JAM\0\0\xCA\x9A;\x01\0\0\0\x02\0\0\0\xFF\xFF\xFF\xFF\x01\0\0\0
* data 2 from 1024 JAM\0\x01\0\0\0:\0\0\0\0\0\0\0qc\x95\xF7\xFF\xFF\xFF\xFF\0\0\0\0\0\0\0\0\0\0\0\0
* data 2 from 1060 \0\xCA\x9A;\0\0\0\0\0\xCA\x9A;\x01\0\0\0\x01\0\x80\0\0\0\0\0\0\0\0\0\x0B\0\0\0
* data 2 from 1092 \xFF\xFF\xFF\xFF\0\0\0\0
* data 2 from 1100 \x02\0\0\0\x07\0\0\0Bob Ray\x03\0\0\0\x03\0\0\0All\x04\0\0\0\x0B\0\0\00.1.TESTBBS
* data 2 from 1145 \x06\0\0\0\x05\0\0\0Hello
* data 2 from 1158 JAM\0\x01\0\0\0:\0\0\0\0\0\0\0\xB4_\x18\xCE\xFF\xFF\xFF\xFF\0\0\0\0\0\0\0\0\0\0\0\0
* data 2 from 1194 \0\xCA\x9A;\0\0\0\0\0\xCA\x9A;\x02\0\0\0\x01\0\x80\0\0\0\0\0\x0B\0\0\0\x0B\0\0\0
* data 2 from 1226 \xFF\xFF\xFF\xFF\0\0\0\0
* data 2 from 1234 \x02\0\0\0\x07\0\0\0Bob Ray\x03\0\0\0\x03\0\0\0All\x04\0\0\0\x0B\0\0\00.2.TESTBBS
* data 2 ends 1279 \x06\0\0\0\x05\0\0\0Hello
* data 3 ends 0 First line\rFirst line\r
* data 4 ends 0 \x22\x8E\xE7\xC4\0\x04\0\0\x22\x8E\xE7\xC4\x86\x04\0\0
* data 5 from 0 \x99W\x03\x9F\x01\0\0\0\0\0\0\0\0\0\0\0\x91d\x92\xC6\x02\0\0\0\0\0\0\0\0\0\0\0
* data 5 ends 32 #9\xC6m\x03\0\0\0\0\0\0\0\0\0\0\0\xAA\xFEL\x8E\x04\0\0\0\0\0\0\0\0\0\0\0
* data 6 from 1076 \x05\0\0\x02
"#;

#[test]
fn messages_are_imported(rt: HostRuntime) -> Result<(), Miss> {
    let alloc = rt.alloc();
    let stage = played(alloc, IMPORTED)?;
    let reserved = copies(alloc, b"\0", 1000)?;
    expect_part(&stage.host, FileId::jhr(0), 24, reserved.as_slice())
}

/// Three answers to the first message, and the original, first child and next child of each message.
const LINKED: &str = r#"
* board B
* add answers 3 From: Bob Ray\nTo: All\nSubject: Hello\nReply: 0.1.TESTBBS\n\nFirst line\n.\n
> kill 0 1
refused nomessage
> import 0 one
imported 1 into 0
> import 0 answers
imported 3 into 0
> kill 0 3
killed 0 3
> kill 0 3
refused nomessage
> kill 0 5
refused nomessage
> kill 0 0
refused nomessage
> kill 5 1
refused noconference
> kill 65536 1
refused noconference
> check
board TESTBBS
0 GENERAL: 4 slots, 3 live
1 NETMAIL: 0 slots, 0 live
7 NEWS: 0 slots, 0 live
4 users, 0 uploads, 4333 bytes
* data 2 from 1048 \0\0\0\0\x02\0\0\0\0\0\0\0
* data 2 from 1182 \x01\0\0\0\0\0\0\0\x03\0\0\0
* data 2 from 1335 \x01\0\0\0\0\0\0\0\x04\0\0\0
* data 2 from 1488 \x01\0\0\0\0\0\0\0\0\0\0\0
"#;

/// A sheet with a date, a msgid and a line that begins with a dot: the moments, the number and the attribute of its
/// header, its subfields, and its text.
const DATED: &str = r#"
* board B
* put dated From: Bob Ray\nTo: All\nDate: 5\nMsgid: own\nPrivate: yes\n\n..x\n.\n
> import 0 dated
imported 1 into 0
* data 2 from 1060 \x05\0\0\0\0\0\0\0\0\xCA\x9A;\x01\0\0\0\x05\0\x80\0
* data 2 ends 1100 \x02\0\0\0\x07\0\0\0Bob Ray\x03\0\0\0\x03\0\0\0All\x04\0\0\0\x03\0\0\0own
* data 3 ends 0 .x\r
"#;

/// Lines that import nothing, where no board is made and on the board B, each with the first of the refusals that
/// apply.
const REFUSED: &str = r#"
> import 5 none
refused notmade
> kill 5 0
refused notmade
* board B
* put bad From: A\nSubject: x\n\n
* put empty \n\n
* add huge 82242 From: Bob Ray\nTo: All\nSubject: Hello\n\nFirst line\n.\n
> import 7 empty
imported 0 into 7
> import 5 none
refused noconference
> import 65536 one
refused noconference
> import 0 none
refused nofile none
> import 0 bad
refused sheet 3 missing
> import 0 huge
refused toolarge huge
* data 10 has 1024
"#;

/// A conference has 9999 slots at most.
const SLOTS: &str = r#"
* board B
* add most 9999 From: Bob Ray\nTo: All\nSubject: Hello\n\nFirst line\n.\n
> import 0 most
imported 9999 into 0
> import 0 one
refused slots 10000
> import 0 two
refused slots 10001
> import 7 one
imported 1 into 7
"#;

/// One message more behind 1,000 makes the data files 156 bytes longer, and its run writes at most
/// 2 * (156 + 200 * 2) bytes.
const BEHIND: &str = r#"
* board B
* add many 1000 From: Bob Ray\nTo: All\nSubject: Hello\n\nFirst line\n.\n
> import 0 many
imported 1000 into 0
> check
board TESTBBS
0 GENERAL: 1000 slots, 1000 live
1 NETMAIL: 0 slots, 0 live
7 NEWS: 0 slots, 0 live
4 users, 0 uploads, 158557 bytes
> import 0 one
imported 1 into 0
* wrote 1112
> check
board TESTBBS
0 GENERAL: 1001 slots, 1001 live
1 NETMAIL: 0 slots, 0 live
7 NEWS: 0 slots, 0 live
4 users, 0 uploads, 158713 bytes
"#;

/// A damaged index is named.
const INDEX: &str = r#"
* board B
* add six 6 From: Bob Ray\nTo: All\nSubject: Hello\n\nFirst line\n.\n
> import 0 six
imported 6 into 0
* data 4 has 48
* damage 4 becomes 44 255
> check
damaged 4 5 index
> import 5 none
damaged 4 5 index
> kill 5 0
damaged 4 5 index
"#;

/// Other words change no message.
const OTHER_WORDS: &str = "
> import
usage
> import 0
usage
> import x one
usage
> import 0 one two
usage
> import 0 ../one
usage
> kill 0
usage
> kill 0 1 2
usage
> kill 0 -1
usage
> kill zero 1
usage
";

#[test]
fn sheets_are_imported_or_refused(rt: HostRuntime) -> Result<(), Miss> {
    expect_transcripts(
        rt.alloc(),
        &[LINKED, DATED, REFUSED, SLOTS, BEHIND, INDEX, OTHER_WORDS],
    )
}

/// Puts a copy of a file in the place of another.
fn put_copy(alloc: Global, host: &mut MemoryHost, from: FileId, to: FileId) -> Result<(), Miss> {
    let file = Bytes::from_slice(alloc, host.file(from))?;
    put_data(host, to, file.as_slice())
}

/// Gives all conferences but the last the files of the first, without a run for each: nothing in these depends on
/// their conference.
fn fill_conferences(alloc: Global, host: &mut MemoryHost) -> Result<(), Miss> {
    for place in 1..8 {
        put_copy(alloc, host, FileId::jhr(0), FileId::jhr(place))?;
        put_copy(alloc, host, FileId::jdt(0), FileId::jdt(place))?;
        put_copy(alloc, host, FileId::jdx(0), FileId::jdx(place))?;
    }
    Ok(())
}

/// A setup file with nine conferences, and a sheet of 255 messages, each as long as it may be.
const FILLED: &str = r#"
* put nine board: Full\ncity: Springfield\nphone: 555-0100\nsysop: Sam Sysop\nbbsid: FULL\nserial: 1\nzones:\n
* add nine 1 conference: 0 local - C0\nconference: 1 local - C1\nconference: 2 local - C2\n
* add nine 1 conference: 3 local - C3\nconference: 4 local - C4\nconference: 5 local - C5\n
* add nine 1 conference: 6 local - C6\nconference: 7 local - C7\nconference: 8 local - C8\n
* put longest From: Bob Ray\nTo: All\n\n
* add longest 16383 x
* add longest 1 \n.\n
* join long 255 longest
> init nine
made 9 conferences
> import 0 long
imported 255 into 0
"#;

const TOO_LONG: &str = "
> import 8 long
refused size 37903426
";

#[test]
fn a_sheet_that_makes_the_files_too_long_is_refused(rt: HostRuntime) -> Result<(), Miss> {
    let alloc = rt.alloc();
    let mut stage = played(alloc, FILLED)?;
    fill_conferences(alloc, &mut stage.host)?;
    stage.play(alloc, TOO_LONG)
}
