//! Runs of `adopt`, by which a sysop takes another tool's base over.
use door_outside::FileId;
use std::alloc::Global;
use test_runs::{Miss, Stage, expect_part, expect_transcripts, file_of, played, put};

/// The base `old`: the files of the conference 0 after the sheet given twice.
const OLD: &str = r#"
* put old.JHR JAM\0\0\xCA\x9A;\x01\0\0\0\x02\0\0\0\xFF\xFF\xFF\xFF\x01\0\0\0
* add old.JHR 1000 \0
* add old.JHR 1 JAM\0\x01\0\0\0:\0\0\0\0\0\0\0qc\x95\xF7\xFF\xFF\xFF\xFF\0\0\0\0\0\0\0\0\0\0\0\0
* add old.JHR 1 \0\xCA\x9A;\0\0\0\0\0\xCA\x9A;\x01\0\0\0\x01\0\x80\0\0\0\0\0\0\0\0\0\x0B\0\0\0
* add old.JHR 1 \xFF\xFF\xFF\xFF\0\0\0\0\x02\0\0\0\x07\0\0\0Bob Ray\x03\0\0\0\x03\0\0\0All
* add old.JHR 1 \x04\0\0\0\x0B\0\0\00.1.TESTBBS\x06\0\0\0\x05\0\0\0Hello
* add old.JHR 1 JAM\0\x01\0\0\0:\0\0\0\0\0\0\0\xB4_\x18\xCE\xFF\xFF\xFF\xFF\0\0\0\0\0\0\0\0\0\0\0\0
* add old.JHR 1 \0\xCA\x9A;\0\0\0\0\0\xCA\x9A;\x02\0\0\0\x01\0\x80\0\0\0\0\0\x0B\0\0\0\x0B\0\0\0
* add old.JHR 1 \xFF\xFF\xFF\xFF\0\0\0\0\x02\0\0\0\x07\0\0\0Bob Ray\x03\0\0\0\x03\0\0\0All
* add old.JHR 1 \x04\0\0\0\x0B\0\0\00.2.TESTBBS\x06\0\0\0\x05\0\0\0Hello
* put old.JDT First line\rFirst line\r
* put old.JDX \x22\x8E\xE7\xC4\0\x04\0\0\x22\x8E\xE7\xC4\x86\x04\0\0
* length old.JHR 1292
"#;

/// Plays a transcript with the base `old` on the shelf.
fn played_with_old(alloc: Global, transcript: &str) -> Result<Stage, Miss> {
    let mut stage = played(alloc, OLD)?;
    stage.play(alloc, transcript)?;
    Ok(stage)
}

/// The same, where nothing more is to be looked at.
fn expect_with_old(alloc: Global, transcript: &str) -> Result<(), Miss> {
    played_with_old(alloc, transcript)?;
    Ok(())
}

/// The same of each of some transcripts.
fn expect_all_with_old(alloc: Global, transcripts: &[&str]) -> Result<(), Miss> {
    for transcript in transcripts {
        expect_with_old(alloc, transcript)?;
    }
    Ok(())
}

/// Looks whether a data file begins as a file of the shelf.
fn expect_front(alloc: Global, stage: &Stage, file: FileId, name: &str) -> Result<(), Miss> {
    let wanted = file_of(alloc, &stage.shelf, name)?;
    expect_part(&stage.host, file, 0, wanted.as_slice())
}

/// The base in an empty conference: its three files become those of the base.
const TWO: &str = "
* board B
> adopt 0 old
1 posted 0 1
2 posted 0 2
posted 2 refused 0
> check
board TESTBBS
0 GENERAL: 2 slots, 2 live
1 NETMAIL: 0 slots, 0 live
7 NEWS: 0 slots, 0 live
4 users, 0 uploads, 3970 bytes
* data 2 has 1292
* data 3 has 22
* data 4 has 16
";

/// Looks whether the files of the first conference begin as the base.
fn expect_fronts(alloc: Global, stage: &Stage) -> Result<(), Miss> {
    expect_front(alloc, stage, FileId::jhr(0), "old.JHR")?;
    expect_front(alloc, stage, FileId::jdt(0), "old.JDT")?;
    expect_front(alloc, stage, FileId::jdx(0), "old.JDX")
}

#[test]
fn a_base_is_adopted(rt: HostRuntime) -> Result<(), Miss> {
    let alloc = rt.alloc();
    let stage = played_with_old(alloc, TWO)?;
    expect_fronts(alloc, &stage)
}

/// The base with its .JDT and its .JHR cut short. What is refused leaves the board as it was.
const SHORT: &str = r#"
* board B
* put old.JDT First line\rFirst line
> adopt 0 old
1 posted 0 1
2 refused text
posted 1 refused 1
* data 3 ends 0 First line\r
* put old.JHR JAM\0\0\xCA\x9A;\x01\0\0\0\x02\0\0\0\xFF\xFF\xFF\xFF\x01\0\0\0
* add old.JHR 999 \0
> adopt 0 old
refused foreign short
* add old.JHR 1 \0
> adopt 0 old
1 refused header
2 refused header
posted 0 refused 2
* put old.JHR jAM\0
* add old.JHR 1019 \0
> adopt 0 old
refused foreign short
* add old.JHR 1 \0
> adopt 0 old
refused foreign signature
* put old.JHR JAM\0
* add old.JHR 1020 x
* put old.JDX \x22\x8E\xE7\xC4\0\x04\0
> adopt 0 old
posted 0 refused 0
> check
board TESTBBS
0 GENERAL: 1 slots, 1 live
1 NETMAIL: 0 slots, 0 live
7 NEWS: 0 slots, 0 live
4 users, 0 uploads, 3817 bytes
* data 2 from 8 \x01\0\0\0\x01\0\0\0
"#;

/// Twice into one conference, and then into another in one batch. The messages keep their msgids, which don't make them
/// answers to each other: all are original ones.
const TWICE: &str = r#"
* board B
* put lines adopt 0 old\nadopt 0 old\nadopt 7 old\ncheck\nadopt 0 ../old\n
> batch lines
1 posted 0 1
2 posted 0 2
posted 2 refused 0
1 posted 0 3
2 posted 0 4
posted 2 refused 0
1 posted 7 1
2 posted 7 2
posted 2 refused 0
board TESTBBS
0 GENERAL: 4 slots, 4 live
1 NETMAIL: 0 slots, 0 live
7 NEWS: 2 slots, 2 live
4 users, 0 uploads, 4582 bytes
usage line 5
* data 2 has 1560
* data 2 from 8 \x02\0\0\0\x04\0\0\0
* data 2 from 1308 qc\x95\xF7\xFF\xFF\xFF\xFF\0\0\0\0\0\0\0\0\0\0\0\0\0\xCA\x9A;\0\0\0\0\0\xCA\x9A;
* data 2 from 1340 \x03\0\0\0\x01\0\x80\0\0\0\0\0\x16\0\0\0\x0B\0\0\0
* data 2 from 1474 \x04\0\0\0\x01\0\x80\0\0\0\0\0!\0\0\0\x0B\0\0\0
* data 2 from 1528 \x04\0\0\0\x0B\0\0\00.2.TESTBBS
* data 3 ends 0 First line\rFirst line\rFirst line\rFirst line\r
* data 4 ends 16 \x22\x8E\xE7\xC4\x0C\x05\0\0\x22\x8E\xE7\xC4\x92\x05\0\0
* data 10 has 1292
"#;

/// A base whose .JDX names the second header first, and whose bodies differ.
const CROSSED: &str = r#"
* board B
* join crossed.JHR 1 old.JHR
* put crossed.JDT First line\rSecond one\r
* put crossed.JDX \x22\x8E\xE7\xC4\x86\x04\0\0\x22\x8E\xE7\xC4\0\x04\0\0
> adopt 0 crossed
1 posted 0 1
2 posted 0 2
posted 2 refused 0
* data 2 from 1126 \x04\0\0\0\x0B\0\0\00.2.TESTBBS
* data 2 from 1260 \x04\0\0\0\x0B\0\0\00.1.TESTBBS
* data 3 ends 0 Second one\rFirst line\r
"#;

/// In a net conference each message is private, so that the sysop alone sees what is to nobody who is a user. Each keeps
/// its msgid.
const NET: &str = r#"
* board B
> adopt 1 old
1 posted 1 1
2 posted 1 2
posted 2 refused 0
> export "Ann Lee" 10 out
packet 1: 0 messages
> export "Sam Sysop" 10 out
packet 1: 2 messages
* data 6 from 1072 \x01\0\0\0\x05\0\0\x02
* data 6 from 1126 \x04\0\0\0\x0B\0\0\00.1.TESTBBS
* data 6 from 1206 \x02\0\0\0\x05\0\0\x02
> adopt 0 old
1 posted 0 1
2 posted 0 2
posted 2 refused 0
> export "Ann Lee" 10 out
packet 2: 2 messages
"#;

/// A header without subfields, with each bit that has a meaning but DELETED, and in all fields that aren't looked at what
/// the door never writes. The msgid is generated for each conference.
const BARE: &str = r#"
* board B
* put bare.JHR JAM\0
* add bare.JHR 1020 \xFF
* add bare.JHR 1 JAM\0\x01\0\xFF\xFF\0\0\0\0
* add bare.JHR 24 \xFF
* add bare.JHR 1 \x01\0\0\0\x02\0\0\0\x03\0\0\0\xFF\xFF\xFF\xFF\xFF\xFF\xFF\x7F\xFF\xFF\xFF\xFF\0\0\0\0\x06\0\0\0
* add bare.JHR 8 \xFF
* put bare.JDT Hi\nyou
* put bare.JDX \0\0\0\0\0\x04\0\0
> adopt 0 bare
1 posted 0 1
posted 1 refused 0
> adopt 7 bare
1 posted 7 1
posted 1 refused 0
* data 2 from 1024 JAM\0\x01\0\0\0-\0\0\0\0\0\0\0
* data 2 from 1048 \0\0\0\0\0\0\0\0\0\0\0\0\x01\0\0\0\x02\0\0\0\x03\0\0\0
* data 2 from 1072 \x01\0\0\0\x0D\0\x80\0\0\0\0\0\0\0\0\0\x06\0\0\0\xFF\xFF\xFF\xFF\0\0\0\0
* data 2 ends 1100 \x02\0\0\0\x07\0\0\0Unknown\x03\0\0\0\x03\0\0\0All\x04\0\0\0\x0B\0\0\00.1.TESTBBS
* data 3 ends 0 Hiyou\r
* data 10 from 1126 \x04\0\0\0\x0B\0\0\07.1.TESTBBS
"#;

/// Records that name: no header, one whose subfields don't fill their length, none by 8 bytes FFh, one with a text past
/// the end, a deleted one, one whose body would have 16,385 bytes, and one whose body has 16,384.
const JUDGED: &str = r#"
* board B
* put judged.JHR JAM\0
* add judged.JHR 1020 \0
* add judged.JHR 1 JAM\0\x01\0\0\0\x01\0\0\0
* add judged.JHR 64 \0
* add judged.JHR 1 JAM\0\x01\0\0\0
* add judged.JHR 56 \0
* add judged.JHR 1 \x01@\0\0\0\0\0\0\0\0\0\0
* add judged.JHR 1 JAM\0\x01\0\0\0
* add judged.JHR 44 \0
* add judged.JHR 1 \0\0\0\x80
* add judged.JHR 20 \0
* add judged.JHR 1 JAM\0\x01\0\0\0
* add judged.JHR 56 \0
* add judged.JHR 1 \0@\0\0\0\0\0\0\0\0\0\0
* add judged.JHR 1 JAM\0\x01\0\0\0
* add judged.JHR 52 \0
* add judged.JHR 1 \x01\0\0\0\xFF?\0\0\0\0\0\0\0\0\0\0
* length judged.JHR 1404
* add judged.JDT 16384 x
* put judged.JDX \0\0\0\0\0\0\xFF\xFF\0\0\0\0\0\x04\0\0\xFF\xFF\xFF\xFF\xFF\xFF\xFF\xFF
* add judged.JDX 1 \0\0\0\0L\x04\0\0\0\0\0\0\x98\x04\0\0\0\0\0\0\xE4\x04\0\0\0\0\0\00\x05\0\0
> adopt 0 judged
1 refused header
2 refused subfields
4 refused text
6 refused length
7 posted 0 1
posted 1 refused 4
* data 2 ends 1100 \x02\0\0\0\x07\0\0\0Unknown\x03\0\0\0\x03\0\0\0All\x04\0\0\0\x0B\0\0\00.1.TESTBBS
* data 3 has 16384
* data 3 ends 16380 xxx\r
* data 4 has 8
"#;

/// A conference of this board as a base: a message, a deleted one, an answer to the first, a slot without a message, and
/// a message behind it.
const OWN: &str = r#"
* board B
* put answer From: Bob Ray\nTo: All\nSubject: Hello\nReply: 0.1.TESTBBS\n\nAn answer.\n.\n
> import 0 two
imported 2 into 0
> import 0 answer
imported 1 into 0
> kill 0 2
killed 0 2
* damage 4 longer 8 255
> import 0 one
imported 1 into 0
"#;

/// What is live of it comes to another conference, where the answer is linked under its new number.
const OWN_ADOPTED: &str = r#"
> adopt 7 own
1 posted 7 1
3 posted 7 2
5 posted 7 3
posted 3 refused 0
> check
board TESTBBS
0 GENERAL: 5 slots, 3 live
1 NETMAIL: 0 slots, 0 live
7 NEWS: 3 slots, 3 live
4 users, 0 uploads, 4781 bytes
* data 10 has 1445
* data 10 from 1048 \0\0\0\0\x02\0\0\0\0\0\0\0
* data 10 from 1182 \x01\0\0\0\0\0\0\0\0\0\0\0
* data 10 from 1335 \0\0\0\0\0\0\0\0\0\0\0\0
* data 10 from 1413 \x04\0\0\0\x0B\0\0\00.5.TESTBBS
* data 11 ends 0 First line\rAn answer.\rFirst line\r
* data 12 ends 0 \x22\x8E\xE7\xC4\0\x04\0\0\x22\x8E\xE7\xC4\x86\x04\0\0\x22\x8E\xE7\xC4\x1F\x05\0\0
"#;

/// Puts a data file on the shelf.
fn put_own(alloc: Global, stage: &mut Stage, name: &str, file: FileId) -> Result<(), Miss> {
    put(&mut stage.shelf, alloc, name, stage.host.file(file))
}

/// Puts the files of the first conference on the shelf as a base, and adopts it.
fn adopt_own(alloc: Global, stage: &mut Stage) -> Result<(), Miss> {
    put_own(alloc, stage, "own.JHR", FileId::jhr(0))?;
    put_own(alloc, stage, "own.JDT", FileId::jdt(0))?;
    put_own(alloc, stage, "own.JDX", FileId::jdx(0))?;
    stage.play(alloc, OWN_ADOPTED)
}

#[test]
fn a_base_of_this_board_is_adopted(rt: HostRuntime) -> Result<(), Miss> {
    let alloc = rt.alloc();
    let mut stage = played(alloc, OWN)?;
    adopt_own(alloc, &mut stage)
}

/// Lines that adopt nothing, where no board is made, on the board B and on a damaged one, each with the first of the
/// refusals that apply.
const REFUSED: &str = r#"
> adopt 5 none
refused notmade
* board B
> adopt 5 none
refused noconference
> adopt 65536 none
refused noconference
> adopt 0 none
refused nofile none.JHR
> adopt 0 fido/net/none
refused nofile fido/net/none.JHR
* put none.JHR
> adopt 0 none
refused nofile none.JDX
* put none.JDX
> adopt 0 none
refused nofile none.JDT
* put none.JDT
> adopt 5 none
refused noconference
> adopt 0 none
refused foreign short
* data 2 has 1024
* damage 0 becomes 3 88
> adopt 5 none
damaged 0 0 magic
"#;

/// Files of 16,777,216 bytes, and of one more.
const LARGE: &str = "
* board B
* add piece 1024 x
* join most.JHR 16384 piece
* join more.JHR 1 most.JHR
* add more.JHR 1 x
> adopt 0 more
refused toolarge more.JHR
> adopt 0 most
refused nofile most.JDX
* join most.JDX 1 more.JHR
> adopt 0 most
refused toolarge most.JDX
* put most.JDX
* join most.JDT 1 more.JHR
> adopt 0 most
refused toolarge most.JDT
* put most.JDT
* join most.JDX 1 most.JHR
* join most.JDT 1 most.JHR
> adopt 0 most
refused foreign signature
";

/// A conference that `sample` gives 9,998 slots has room for the first message alone. A deleted message makes no room.
const FULL: &str = r#"
* put setup board: One\ncity: Springfield\nphone: 555-0100\nsysop: Sam Sysop\nbbsid: ONE\nserial: 1\nzones:\nconference: 0 local - C0\n
* put lines init setup\nenroll "Ann Lee" n all\nsample 1 5000\nsample 2 4998\n
> batch lines
made 1 conferences
user 1 Ann Lee
sampled 5000
sampled 4998
> adopt 0 old
1 posted 0 9999
2 refused full
posted 1 refused 1
> kill 0 10000
refused nomessage
> kill 0 9999
killed 0 9999
> adopt 0 old
1 refused full
2 refused full
posted 0 refused 2
"#;

#[test]
fn bases_of_two_messages_are_adopted(rt: HostRuntime) -> Result<(), Miss> {
    expect_all_with_old(rt.alloc(), &[SHORT, TWICE, CROSSED, NET, FULL])
}

/// PREFIX is a word with which PREFIX.JHR is a name of the shelf, also one that has an ending.
const OTHER_WORDS: &str = r#"
> adopt
usage
> adopt 0
usage
> adopt 0 old two
usage
> adopt x old
usage
> adopt -1 old
usage
> adopt 4294967296 old
usage
> adopt 0 ""
usage
> adopt 0 .old
usage
> adopt 0 ../old
usage
> adopt 0 /old
usage
> adopt 0 old/
usage
> adopt 0 "o ld"
usage
> adopt 0 a/b/c/d/e
usage
> adopt 0 a234567890123456789012345678X
usage
> Adopt 0 old
usage
> adopt 4294967295 a/b/c/d
refused notmade
> adopt 0 a23456789012345678901234567X
refused notmade
> adopt 0 old.JHR
refused notmade
> adopt 0 old.
refused notmade
"#;

#[test]
fn other_bases_are_adopted_or_refused(rt: HostRuntime) -> Result<(), Miss> {
    expect_transcripts(rt.alloc(), &[BARE, JUDGED, REFUSED, LARGE, OTHER_WORDS])
}
