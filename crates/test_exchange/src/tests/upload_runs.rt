//! What is posted of reply packets.
use super::four::{FOUR, UPLOADED};
use test_runs::{Miss, expect_transcripts, played};

const ONE: &str = "
* board B
> import 0 one
imported 1 into 0
";

/// The packet is sent again: by the same user, by another, and with a byte that is free changed. Ann's first upload
/// found 3,817 bytes; each message that is posted adds 149, and each record 42. At last come the moments, the number,
/// the attribute and the subfields of the message that her first upload posted.
const SENT_AGAIN: &str = r#"
* blocks free
TESTBBS                                                                                                                        x
 0      09-09-0101:46BOB RAY                  ANN LEE                  Hello                                0       2     \xE1\0\0\x01\0
Hi\xE3
 7      09-09-0101:46BOB RAY                  ANN LEE                  Hello                                0       2     \xE1\0\0\x01\0
Hi\xE3
* blocks empty
testbbs\0
> upload "Ann Lee" rep
again posted 1 refused 3
> upload "aNN lEE" rep
again posted 1 refused 3
> upload "Bob Ray" rep
1 refused sender
2 refused killed
3 refused sender
4 refused conference
posted 0 refused 4
> upload "Bob Ray" rep
again posted 0 refused 4
> upload "Ann Lee" free
1 posted 0 3
2 refused readonly
posted 1 refused 1
> check
board TESTBBS
0 GENERAL: 3 slots, 3 live
1 NETMAIL: 0 slots, 0 live
7 NEWS: 0 slots, 0 live
4 users, 3 uploads, 4241 bytes
> upload "Ann Lee" empty
posted 0 refused 0
> upload "Ann Lee" empty
again posted 0 refused 0
* data 2 from 1194 \xD8\xC9\x9A;\0\0\0\0\0\xCA\x9A;\x02\0\0\0\x01\0\x80\0
* data 2 from 1234 \x02\0\0\0\x07\0\0\0Ann Lee\x03\0\0\0\x07\0\0\0BOB RAY\x04\0\0\0\x0B\0\0\00.2.TESTBBS
* data 2 from 1283 \x06\0\0\0\x05\0\0\0Hello
* data 3 ends 0 First line\rHi\rHi\r
"#;

#[test]
fn each_message_has_its_verdict(rt: HostRuntime) -> Result<(), Miss> {
    let alloc = rt.alloc();
    let mut stage = played(alloc, ONE)?;
    for transcript in [FOUR, UPLOADED, SENT_AGAIN] {
        stage.play(alloc, transcript)?;
    }
    Ok(())
}

/// Net mail to an address, to none, and to one in a zone that the board doesn't have; and the subfields of the one that
/// is posted.
const NET_MAIL: &str = r#"
* board B
* put net From: Ann Lee\nTo: Ann\n\nAnn@2:5020/400.1\nHi\n.\n
* put far From: Ann Lee\nTo: Ann\n\nAnn@2:5020/40000\nHi\n.\n
* put zone From: Ann Lee\nTo: Ann\n\nAnn@3:1/1\nHi\n.\n
* put long From: Ann Lee\nTo: Ann\nSubject: abcdefghijklmnopqrstuvwxyz\n\nAnn@2:5020/400.1\nHi\n.\n
> export "Ann Lee" 10 out
packet 1: 0 messages
> compose out 1 net R1.MSG
composed 1, 1 in R1.MSG
> upload "Ann Lee" R1.MSG
1 posted 1 1
posted 1 refused 0
> compose out 1 far R2.MSG
composed 1, 1 in R2.MSG
> upload "Ann Lee" R2.MSG
1 refused address
posted 0 refused 1
> compose out 1 zone R3.MSG
composed 1, 1 in R3.MSG
> upload "Ann Lee" R3.MSG
1 refused zone
posted 0 refused 1
> compose out 5 net R4.MSG
refused noconference
> compose out 1 long R5.MSG
composed 1, 1 in R5.MSG
* data 6 from 1076 \x05\0\0\x02
* data 6 from 1100 \x01\0\0\0\x0C\0\0\02:5020/400.1\x02\0\0\0\x07\0\0\0Ann Lee
* data 6 from 1135 \x03\0\0\0\x03\0\0\0Ann\x04\0\0\0\x0B\0\0\01.1.TESTBBS
* data 7 ends 0 Hi\r
"#;

/// A text that begins as lines of long names do, with a name that isn't long.
const NO_LONG: &str = r#"
* board B
* blocks rep
TESTBBS
 0      09-09-0101:46ALL                      ANN LEE                  Hello                                0       2     \xE1\0\0\x01\0
To: whom it may concern\xE3\xE3Hi\xE3
> upload "Ann Lee" rep
1 posted 0 1
posted 1 refused 0
* data 3 ends 0 To: whom it may concern\r\rHi\r
"#;

/// Answers to a letter of Bob's to Cy, and one to the first of them; and the subfields of Ann's answer, who doesn't see
/// the letter, of hers to that, and of Cy's.
const ANSWERS: &str = r#"
* board B
* put secret From: Bob Ray\nTo: Cy Day\nSubject: Hello\nPrivate: yes\n\nFirst line\n.\n
* blocks anns
TESTBBS
 0      09-09-0101:46BOB RAY                  ANN LEE                  Hello                                1       2     \xE1\0\0\x01\0
Hi\xE3
 0      09-09-0101:46BOB RAY                  ANN LEE                  Hello                                2       2     \xE1\0\0\x01\0
Hi\xE3
* blocks cys
TESTBBS
 0      09-09-0101:46BOB RAY                  CY DAY                   Hello                                1       2     \xE1\0\0\x01\0
Hi\xE3
> import 0 secret
imported 1 into 0
> upload "Ann Lee" anns
1 posted 0 2
2 posted 0 3
posted 2 refused 0
> upload "Cy Day" cys
1 posted 0 4
posted 1 refused 0
* data 2 from 1237 \x02\0\0\0\x07\0\0\0Ann Lee\x03\0\0\0\x07\0\0\0BOB RAY\x04\0\0\0\x0B\0\0\00.2.TESTBBS
* data 2 from 1286 \x06\0\0\0\x05\0\0\0Hello
* data 2 from 1375 \x02\0\0\0\x07\0\0\0Ann Lee\x03\0\0\0\x07\0\0\0BOB RAY\x04\0\0\0\x0B\0\0\00.3.TESTBBS
* data 2 from 1424 \x05\0\0\0\x0B\0\0\00.2.TESTBBS\x06\0\0\0\x05\0\0\0Hello
* data 2 from 1532 \x02\0\0\0\x06\0\0\0Cy Day\x03\0\0\0\x07\0\0\0BOB RAY\x04\0\0\0\x0B\0\0\00.4.TESTBBS
* data 2 ends 1580 \x05\0\0\0\x0B\0\0\00.1.TESTBBS\x06\0\0\0\x05\0\0\0Hello
"#;

/// A conference that has room for one message more.
const FULL: &str = r#"
* board B
* add most 9998 From: Bob Ray\nTo: All\nSubject: Hello\n\nFirst line\n.\n
* blocks rep
TESTBBS
 0      09-09-0101:46BOB RAY                  ANN LEE                  Hello                                0       2     \xE1\0\0\x01\0
Hi\xE3
 0      09-09-0101:46BOB RAY                  ANN LEE                  Hello                                1       2     \xE1\0\0\x01\0
Hi\xE3
> import 0 most
imported 9998 into 0
> upload "Ann Lee" rep
1 posted 0 9999
2 refused full
posted 1 refused 1
> upload "Ann Lee" rep
again posted 1 refused 1
"#;

#[test]
fn packets_are_uploaded(rt: HostRuntime) -> Result<(), Miss> {
    expect_transcripts(rt.alloc(), &[NET_MAIL, NO_LONG, ANSWERS, FULL])
}
