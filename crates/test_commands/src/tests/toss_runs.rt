//! Runs of `toss`, by which the packet of a FidoNet neighbour comes in.
use std::alloc::Global;
use test_runs::{Miss, Stage, expect_transcripts, played};

/// A board with an area, and the parts of packets: a header from zone 2 to zone 2; and the front and names of a message
/// from 5020/400 to 5020/1, whose text is to follow.
const PARTS: &str = r#"
* setups
* add setup.txt 1 conference: 9 echo - FIDO\n
> init setup.txt
made 4 conferences
* add header 18 \0
* add header 1 \x02\0
* add header 14 \0
* add header 1 \x02\0\x02\0
* add header 20 \0
* length header 58
* put front \x02\0\x90\x01\x01\0\x9C\x13\x9C\x13\0\0\0\008 Sep 01  01:46:40\0
* join message 1 front
* add message 1 Ann Lee\0Joe\0Hi\0
* length message 49
"#;

/// Plays a transcript on that board, with these parts on the shelf.
fn played_with_parts(alloc: Global, transcript: &str) -> Result<Stage, Miss> {
    let mut stage = played(alloc, PARTS)?;
    stage.play(alloc, transcript)?;
    Ok(stage)
}

/// The same, where nothing more is to be looked at.
fn expect_with_parts(alloc: Global, transcript: &str) -> Result<(), Miss> {
    played_with_parts(alloc, transcript)?;
    Ok(())
}

/// The same of each of some transcripts.
fn expect_all_with_parts(alloc: Global, transcripts: &[&str]) -> Result<(), Miss> {
    for transcript in transcripts {
        expect_with_parts(alloc, transcript)?;
    }
    Ok(())
}

/// One message of an area. Its date is a day before it is tossed, and it isn't local.
const ECHO: &str = r#"
* join echo.pkt 1 header
* join echo.pkt 1 message
* add echo.pkt 1 AREA:FIDO\r\x01MSGID: 2:5020/400 1\rHello\r\0\0\0
* length echo.pkt 147
> toss echo.pkt
1 posted 9 1
posted 1 refused 0
* data 14 has 1174
* data 14 from 8 \x01\0\0\0\x01\0\0\0
* data 14 from 1060 \x80x\x99;\0\0\0\0\0\xCA\x9A;\x01\0\0\0\0\0\0\x01\0\0\0\0\0\0\0\0\x06\0\0\0\xFF\xFF\xFF\xFF\0\0\0\0
* data 14 from 1100 \0\0\0\0\n\0\0\02:5020/400\x02\0\0\0\x03\0\0\0Joe\x03\0\0\0\x07\0\0\0Ann Lee
* data 14 from 1144 \x04\0\0\0\x0C\0\0\02:5020/400 1\x06\0\0\0\x02\0\0\0Hi
* data 15 has 6
* data 15 ends 0 Hello\r
> toss echo.pkt
1 refused dupe
posted 0 refused 1
* data 14 has 1174
* data 14 from 8 \x01\0\0\0\x01\0\0\0
"#;

/// The same packet cut short: its first 57, 144, 146 and 145 bytes. What is refused leaves the board as it was.
const CUT: &str = r#"
* add short.pkt 18 \0
* add short.pkt 1 \x02\0
* add short.pkt 14 \0
* add short.pkt 1 \x02\0\x02\0
* add short.pkt 19 \0
* length short.pkt 57
> toss short.pkt
refused packet short 0
* add short.pkt 1 \0
* same short.pkt header
* join cut.pkt 1 header
* join cut.pkt 1 message
* add cut.pkt 1 AREA:FIDO\r\x01MSGID: 2:5020/400 1\rHello\r
* length cut.pkt 144
> toss cut.pkt
refused packet cut 58
* join more.pkt 1 cut.pkt
* add more.pkt 1 \0\0
> toss more.pkt
refused packet cut 145
* data 14 has 1024
* add cut.pkt 1 \0
> toss cut.pkt
1 posted 9 1
posted 1 refused 0
> toss cut.pkt
1 refused dupe
posted 0 refused 1
"#;

/// A packet in which each message is judged behind the ones before it: the third has the msgid of the first, the sixth the
/// one that the fifth was given, and the seventh that of the first in another conference. Tossed again, what has no msgid
/// is posted again, and what has one isn't, though one of these was deleted since.
const MIXED: &str = r#"
* join mixed.pkt 1 header
* join mixed.pkt 1 message
* add mixed.pkt 1 AREA:FIDO\r\x01MSGID: a\rOne\r\0
* join mixed.pkt 1 message
* add mixed.pkt 1 Two\r\0
* join mixed.pkt 1 message
* add mixed.pkt 1 AREA:FIDO\r\x01MSGID: a\rThree\r\0
* join mixed.pkt 1 message
* add mixed.pkt 1 AREA:GENERAL\rFour\r\0
* join mixed.pkt 1 message
* add mixed.pkt 1 AREA: fido \rFive\r\0
* join mixed.pkt 1 message
* add mixed.pkt 1 AREA:FIDO\r\x01MSGID: 9.2.TESTBBS\rSix\r\0
* join mixed.pkt 1 message
* add mixed.pkt 1 \x01MSGID: a\rSeven\r\0
* join mixed.pkt 1 front
* add mixed.pkt 1 \0Joe\0Hi\0AREA:FIDO\r\0
* join mixed.pkt 1 front
* add mixed.pkt 1 Ann\0Jo\x09e\0Hi\0AREA:FIDO\r\0
* join mixed.pkt 1 front
* add mixed.pkt 1 Ann\0Joe\0\x1F\0AREA:FIDO\r\0
> toss mixed.pkt
1 posted 9 1
2 posted 1 1
3 refused dupe
4 refused area
5 posted 9 2
6 refused dupe
7 posted 1 2
8 refused to
9 refused from
10 refused subject
posted 4 refused 6
> kill 9 1
killed 9 1
> toss mixed.pkt
1 refused dupe
2 posted 1 3
3 refused dupe
4 refused area
5 posted 9 3
6 refused dupe
7 refused dupe
8 refused to
9 refused from
10 refused subject
posted 2 refused 8
> check
board TESTBBS
0 GENERAL: 0 slots, 0 live
1 NETMAIL: 3 slots, 3 live
7 NEWS: 0 slots, 0 live
9 FIDO: 3 slots, 2 live
0 users, 0 uploads, 5223 bytes
* data 15 ends 0 One\rFive\rFive\r
* data 7 ends 0 Two\rSeven\rTwo\r
* data 6 from 1100 \0\0\0\0\n\0\0\02:5020/400\x01\0\0\0\x08\0\0\02:5020/1\x02\0\0\0\x03\0\0\0Joe
"#;

/// Without a net conference net mail is refused. A message of no lines is empty, and a packet may have no messages.
const NO_NET: &str = r#"
* put setup board: One\ncity: Springfield\nphone: 555-0100\nsysop: Sam Sysop\nbbsid: ONE\nserial: 1\nzones:\nconference: 3 echo - FIDO\nconference: 4 echo - fido\n
* put header \0\0\0\0\0\0\0\0\0\0\0\0\0\0\0\0\0\0\x02\0
* add header 38 \0
* put front \x02\0
* add front 32 \0
> init setup
made 2 conferences
* join none.pkt 1 header
> toss none.pkt
posted 0 refused 0
* add none.pkt 1 \0\0and more
> toss none.pkt
posted 0 refused 0
* join few.pkt 1 header
* join few.pkt 1 front
* add few.pkt 1 Ann\0Joe\0\0Hello\0
* join few.pkt 1 front
* add few.pkt 1 Ann\0Joe\0\0AREA:FIDO\0
> toss few.pkt
1 refused net
2 posted 3 1
posted 1 refused 1
* data 2 has 1150
* data 2 from 1100 \0\0\0\0\x05\0\0\00:0/0\x02\0\0\0\x03\0\0\0Joe\x03\0\0\0\x03\0\0\0Ann\x04\0\0\0\x07\0\0\03.1.ONE
* data 3 has 0
"#;

/// The refusals of the command in their order, and the faults of a packet.
const REFUSED: &str = r#"
> toss none.pkt
refused notmade
* board B
> toss none.pkt
refused nofile none.pkt
* add piece 1024 \0
* join most.pkt 4096 piece
* join more.pkt 1 most.pkt
* add more.pkt 1 \0
> toss more.pkt
refused toolarge more.pkt
> toss most.pkt
refused packet type 18
* put most.pkt \0\0\0\0\0\0\0\0\0\0\0\0\0\0\0\0\0\0\x02\0
* add most.pkt 38 \0
* join other.pkt 1 most.pkt
* join most.pkt 4095 piece
* add most.pkt 966 \0
* length most.pkt 4194304
> toss most.pkt
posted 0 refused 0
* join field.pkt 1 other.pkt
* add other.pkt 1 \x03\0
> toss other.pkt
refused packet kind 58
* add field.pkt 1 \x02\0
* add field.pkt 32 \0
* add field.pkt 36 x
> toss field.pkt
refused packet field 58
* damage 0 becomes 3 88
> toss none.pkt
damaged 0 0 magic
"#;

/// Bodies of 16,384 bytes and of one more. What is posted is offered to who was a member before.
const LONGEST: &str = r#"
> enroll "Ann Lee" n all
user 1 Ann Lee
* join long.pkt 1 header
* join long.pkt 1 message
* add long.pkt 1 AREA:FIDO\r
* add long.pkt 16384 x
* add long.pkt 1 \r\0
* join long.pkt 1 message
* add long.pkt 1 AREA:FIDO\r
* add long.pkt 16383 x
* add long.pkt 1 \r\0
* put lines toss long.pkt\ntoss long.pkt\nexport "Ann Lee" 10 out\n
> batch lines
1 refused length
2 posted 9 1
posted 1 refused 1
1 refused length
2 posted 9 2
posted 1 refused 1
packet 1: 2 messages
> read out
board Test Board
user ANN LEE
1 9/1 public JOE > ANN LEE: Hi [1]
2 9/2 public JOE > ANN LEE: Hi [1]
2 messages
"#;

#[test]
fn packets_of_parts_are_tossed(rt: HostRuntime) -> Result<(), Miss> {
    expect_all_with_parts(rt.alloc(), &[ECHO, CUT, MIXED, LONGEST])
}

/// A conference of 9,998 slots has room for the first message alone.
const FULL: &str = r#"
* put setup board: One\ncity: Springfield\nphone: 555-0100\nsysop: Sam Sysop\nbbsid: ONE\nserial: 1\nzones:\nconference: 0 echo - FIDO\n
* put lines init setup\nenroll "Ann Lee" n all\nsample 1 5000\nsample 2 4998\n
> batch lines
made 1 conferences
user 1 Ann Lee
sampled 5000
sampled 4998
* put two.pkt \0\0\0\0\0\0\0\0\0\0\0\0\0\0\0\0\0\0\x02\0
* add two.pkt 38 \0
* put message \x02\0
* add message 32 \0
* add message 1 Ann\0Joe\0\0AREA:FIDO\r\x01MSGID: a\r\0
* join two.pkt 2 message
* put message \x02\0
* add message 32 \0
* add message 1 Ann\0Joe\0\0AREA:FIDO\r\0
* join two.pkt 1 message
> toss two.pkt
1 posted 0 9999
2 refused dupe
3 refused full
posted 1 refused 2
> kill 0 9999
killed 0 9999
> toss two.pkt
1 refused dupe
2 refused dupe
3 refused full
posted 0 refused 3
"#;

/// FILE is a name of the shelf.
const OTHER_WORDS: &str = r#"
> toss
usage
> toss a b
usage
> toss ../a
usage
> toss ""
usage
> Toss a
usage
> toss a/b/c/d
refused notmade
"#;

#[test]
fn other_packets_are_tossed_or_refused(rt: HostRuntime) -> Result<(), Miss> {
    expect_transcripts(rt.alloc(), &[NO_NET, REFUSED, FULL, OTHER_WORDS])
}
