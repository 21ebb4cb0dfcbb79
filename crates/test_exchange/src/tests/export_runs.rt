//! Runs of the commands by which a caller gets his mail: `export` and `ack`.
use memory_outside::MemoryHost;
use std::alloc::Global;
use test_runs::{CONTROL, Miss, Stage, expect_file, expect_transcript, expect_transcripts, played};

const EXPORTED: &str = r#"
* board B
> import 0 one
imported 1 into 0
> export "Ann Lee" 10 out
packet 1: 1 messages
> list out/MESSAGES.DAT
1 0/1 public BOB RAY > ALL: Hello [1]
1 messages
> read out
board Test Board
user ANN LEE
1 0/1 public BOB RAY > ALL: Hello [1]
1 messages
> read out 1
From: BOB RAY
To: ALL
Subject: Hello
Date: 09-09-01 01:46
Conference: 0
Number: 1
Reference: 0

First line
> read out 2
refused nomessage
> export "aNN lEE" 1 a/b/c
packet 2: 1 messages
* packet out/MESSAGES.DAT
Produced by qwkdoor, packet 1
 1      09-09-0101:46ALL                      BOB RAY                  Hello                                0       2     \xE1\0\0\x01\0
First line\xE3
* packet a/b/c/MESSAGES.DAT
Produced by qwkdoor, packet 2
 1      09-09-0101:46ALL                      BOB RAY                  Hello                                0       2     \xE1\0\0\x01\0
First line\xE3
"#;

#[test]
fn a_packet_is_exported_and_read(rt: HostRuntime) -> Result<(), Miss> {
    let alloc = rt.alloc();
    let stage = played(alloc, EXPORTED)?;
    expect_file(alloc, &stage.shelf, "out/CONTROL.DAT", CONTROL)?;
    expect_file(alloc, &stage.shelf, "a/b/c/CONTROL.DAT", CONTROL)
}

/// Offers, each of which stands until it is acknowledged. Two messages of the fourth are deleted before it is
/// acknowledged, its last too, and the third stays open. At last come the received and the processed moment, the number and the attribute
/// of four messages.
const OFFERS: &str = r#"
* board B
* add to-ann 3 From: Bob Ray\nTo: Ann LEE\nSubject: Hello\n\nFirst line\n.\n
> import 0 two
imported 2 into 0
> import 7 one
imported 1 into 7
> export "Ann Lee" 2 out
packet 1: 2 messages
> read out
board Test Board
user ANN LEE
1 0/1 public BOB RAY > ALL: Hello [1]
2 0/2 public BOB RAY > ALL: Hello [1]
2 messages
> export "Ann Lee" 2 out
packet 2: 2 messages
> read out
board Test Board
user ANN LEE
1 0/1 public BOB RAY > ALL: Hello [1]
2 0/2 public BOB RAY > ALL: Hello [1]
2 messages
> ack "Ann Lee" 1
acknowledged 1
> ack "Ann Lee" 1
refused nopacket 2
> ack "Ann Lee" 2
acknowledged 2
> ack "Ann Lee" 2
refused nopacket none
> export "Ann Lee" 2 out
packet 3: 1 messages
> export "Ann Lee" 0 out
refused limit
> export "Ann Lee" 2001 out
refused limit
> export Zed 2 out
refused nouser
> read out
board Test Board
user ANN LEE
1 7/1 public BOB RAY > ALL: Hello [1]
1 messages
> import 0 to-ann
imported 3 into 0
> export "ann lee" 2000 out
packet 4: 4 messages
> kill 0 4
killed 0 4
> kill 0 5
killed 0 5
> ack "ANN LEE" 4
acknowledged 4
> ack "Ann Lee" 4
refused nopacket 3
> export "Ann Lee" 2000 out
packet 5: 0 messages
> read out
board Test Board
user ANN LEE
0 messages
* data 2 from 1064 \0\0\0\0\0\xCA\x9A;\x01\0\0\0\x01\0\x80\0
* data 2 from 1332 \0\xCA\x9A;\0\xCA\x9A;\x03\0\0\0\x09\0\x80\0
* data 2 from 1470 \0\0\0\0\0\xCA\x9A;\x04\0\0\0\x01\0\x80\x80
* data 2 from 1608 \0\0\0\0\0\xCA\x9A;\x05\0\0\0\x01\0\x80\x80
"#;

/// Five exports in a row: the first of five offers goes.
const FIVE: &str = r#"
* board B
> import 0 two
imported 2 into 0
> export "Ann Lee" 10 out
packet 1: 2 messages
> export "Ann Lee" 10 out
packet 2: 2 messages
> export "Ann Lee" 10 out
packet 3: 2 messages
> export "Ann Lee" 10 out
packet 4: 2 messages
> export "Ann Lee" 10 out
packet 5: 2 messages
> ack "Ann Lee" 1
refused nopacket 5
> ack "Ann Lee" 2
acknowledged 2
> ack "Ann Lee" 5
acknowledged 5
> ack "Ann Lee" 5
refused nopacket 4
> export "Ann Lee" 10 out
packet 6: 0 messages
"#;

/// A message more before each of four exports.
const FOUR_OFFERS: &str = r#"
* board B
> import 0 one
imported 1 into 0
> export "Ann Lee" 10 out
packet 1: 1 messages
> import 0 one
imported 1 into 0
> export "Ann Lee" 10 out
packet 2: 2 messages
> import 0 one
imported 1 into 0
> export "Ann Lee" 10 out
packet 3: 3 messages
> import 0 one
imported 1 into 0
> export "Ann Lee" 10 out
packet 4: 4 messages
"#;

/// The orders in which four packets can be acknowledged.
const ORDERS: &str = "1234 1243 1324 1342 1423 1432 2134 2143 2314 2341 2413 2431 \
3124 3142 3214 3241 3412 3421 4123 4132 4213 4231 4312 4321";

/// Acknowledges a packet: the pointer, and the greatest number of a message that was read, are the greatest so far.
fn acknowledge(alloc: Global, stage: &mut Stage, packet: char, read: char) -> Result<(), Miss> {
    let transcript = format!(in alloc;
        "\n> ack \"Ann Lee\" {packet}\nacknowledged {packet}\n* data 5 from 8 \\x0{read}\\0\\0\\0\\x0{read}\\0\\0\\0\n"
    )?;
    stage.play(alloc, transcript.as_str())
}

/// Acknowledges four packets in an order. Nothing is offered then.
fn expect_order(alloc: Global, offered: &MemoryHost, order: &str) -> Result<(), Miss> {
    let mut stage = Stage::after(alloc, offered)?;
    let mut read = '0';
    for packet in order.chars() {
        read = read.max(packet);
        acknowledge(alloc, &mut stage, packet, read)?;
    }
    stage.play(alloc, "\n> ack \"Ann Lee\" 4\nrefused nopacket none\n")
}

#[test]
fn offers_are_acknowledged_in_each_order(rt: HostRuntime) -> Result<(), Miss> {
    let alloc = rt.alloc();
    let stage = played(alloc, FOUR_OFFERS)?;
    for order in ORDERS.split(' ') {
        expect_order(alloc, &stage.host, order)?;
    }
    Ok(())
}

/// Each of these users, but Ann, sees the private message: Cy it is to, Bob it is from, and Sam is the sysop. It is
/// unread until Cy has acknowledged it.
const PRIVATE: &str = r#"
* board B
* put secret From: Bob Ray\nTo: cy DAY\nSubject: Hello\nPrivate: yes\n\nFirst line\n.\n
> import 0 secret
imported 1 into 0
> export "Ann Lee" 10 ann
packet 1: 0 messages
> export "Bob Ray" 10 bob
packet 1: 1 messages
> export "Sam Sysop" 10 sam
packet 1: 1 messages
> export "Cy Day" 10 cy
packet 1: 1 messages
* packet ann/MESSAGES.DAT
Produced by qwkdoor, packet 1
* packet bob/MESSAGES.DAT
Produced by qwkdoor, packet 1
+1      09-09-0101:46CY DAY                   BOB RAY                  Hello                                0       2     \xE1\0\0\x01\0
First line\xE3
* packet sam/MESSAGES.DAT
Produced by qwkdoor, packet 1
+1      09-09-0101:46CY DAY                   BOB RAY                  Hello                                0       2     \xE1\0\0\x01\0
First line\xE3
* packet cy/MESSAGES.DAT
Produced by qwkdoor, packet 1
+1      09-09-0101:46CY DAY                   BOB RAY                  Hello                                0       2     \xE1\0\0\x01\0
First line\xE3
* now 1000000100
> ack "Cy Day" 1
acknowledged 1
* data 2 from 1064 d\xCA\x9A;\0\xCA\x9A;\x01\0\0\0\x0D\0\x80\0
* now 1000000000
> export "Sam Sysop" 10 sam
packet 2: 1 messages
> export "Cy Day" 10 cy
packet 2: 0 messages
* packet sam/MESSAGES.DAT
Produced by qwkdoor, packet 2
*1      09-09-0101:46CY DAY                   BOB RAY                  Hello                                0       2     \xE1\0\0\x01\0
First line\xE3
* packet cy/MESSAGES.DAT
Produced by qwkdoor, packet 2
"#;

/// The message is private in the net conference, which Ed isn't a member of, and Bob is a member of the first alone.
const MEMBERS: &str = r#"
* board B
> enroll "Ed Poe" - 0,7
user 5 Ed Poe
> import 7 one
imported 1 into 7
> import 1 one
imported 1 into 1
> import 0 one
imported 1 into 0
> export "Sam Sysop" 10 sam
packet 1: 3 messages
> export "Ann Lee" 10 ann
packet 1: 2 messages
> export "Ed Poe" 10 ed
packet 1: 2 messages
> export "Bob Ray" 10 bob
packet 1: 1 messages
* packet sam/MESSAGES.DAT
Produced by qwkdoor, packet 1
 1      09-09-0101:46ALL                      BOB RAY                  Hello                                0       2     \xE1\0\0\x01\0
First line\xE3
+1      09-09-0101:46ALL                      BOB RAY                  Hello                                0       2     \xE1\x01\0\x02\0
First line\xE3
 1      09-09-0101:46ALL                      BOB RAY                  Hello                                0       2     \xE1\x07\0\x03\0
First line\xE3
* packet ann/MESSAGES.DAT
Produced by qwkdoor, packet 1
 1      09-09-0101:46ALL                      BOB RAY                  Hello                                0       2     \xE1\0\0\x01\0
First line\xE3
 1      09-09-0101:46ALL                      BOB RAY                  Hello                                0       2     \xE1\x07\0\x02\0
First line\xE3
* same ed/MESSAGES.DAT ann/MESSAGES.DAT
* file ed/CONTROL.DAT Test Board\r\nSpringfield\r\n555-0100\r\nSam Sysop\r\n12345,TESTBBS\r\n09-09-2001,01:46:40\r\nED POE\r\n\r\n0\r\n2\r\n1\r\n0\r\nGENERAL\r\n7\r\nNEWS\r\nWELCOME\r\nNEWS\r\nGOODBYE\r\n
* packet bob/MESSAGES.DAT
Produced by qwkdoor, packet 1
 1      09-09-0101:46ALL                      BOB RAY                  Hello                                0       2     \xE1\0\0\x01\0
First line\xE3
* file bob/CONTROL.DAT Test Board\r\nSpringfield\r\n555-0100\r\nSam Sysop\r\n12345,TESTBBS\r\n09-09-2001,01:46:40\r\nBOB RAY\r\n\r\n0\r\n1\r\n0\r\n0\r\nGENERAL\r\nWELCOME\r\nNEWS\r\nGOODBYE\r\n
"#;

/// Messages with long names and a long subject, a byte that QWK can't show, and the first and the last moment; and one
/// that is as long as it may be.
const CUT_SHORT: &str = r#"
* board B
* put odd From: Bob Ray The Second Of Us All Of Them\nTo: Abcdefghijklmnopqrstuvwxyz0123456789\n
* add odd 1 Subject: 123456789012345678901234567890123456789012345678901234567890123456789012\n
* add odd 1 Date: 0\nMsgid: m1\n\na\xE3b\n\n..x\n.\n
* add odd 1 From: Bob Ray\nTo: All\nReply: m1\nDate: 4294967295\n\n.\n
* add odd 1 From: Bob Ray\nTo: All\nSubject: Hello\n\n
* add odd 16383 x
* add odd 1 \n.\n
> import 0 odd
imported 3 into 0
> export "Bob Ray" 3 out
packet 1: 3 messages
* blocks wanted
Produced by qwkdoor, packet 1
 1      01-01-7000:00ABCDEFGHIJKLMNOPQRSTUVWXYBOB RAY THE SECOND OF US 1234567890123456789012345            0       3     \xE1\0\0\x01\0
To: Abcdefghijklmnopqrstuvwxyz0123456789\xE3From: Bob Ray The Second Of Us All Of Them\xE3Subject: 12345678901234567890123456789012345
6789012345678901234567890123456789012\xE3\xE3a?b\xE3\xE3.x\xE3
 2      02-07-0606:28ALL                      BOB RAY                                                       1       2     \xE1\0\0\x02\0
\x20
 3      09-09-0101:46ALL                      BOB RAY                  Hello                                0       129   \xE1\0\0\x03\0
* add wanted 16383 x
* add wanted 1 \xE3
* same out/MESSAGES.DAT wanted
"#;

/// Offers of a conference of 2,001 messages.
const LIMITS: &str = r#"
* board B
* add many 2001 From: Bob Ray\nTo: All\nSubject: Hello\n\nFirst line\n.\n
> import 0 many
imported 2001 into 0
> export "Ann Lee" 1 out
packet 1: 1 messages
> read out
board Test Board
user ANN LEE
1 0/1 public BOB RAY > ALL: Hello [1]
1 messages
> export "Ann Lee" 2000 out
packet 2: 2000 messages
> scan out/MESSAGES.DAT
2000 messages
> read out 1
From: BOB RAY
To: ALL
Subject: Hello
Date: 09-09-01 01:46
Conference: 0
Number: 1
Reference: 0

First line
> ack "Ann Lee" 2
acknowledged 2
> export "Ann Lee" 2000 out
packet 3: 1 messages
> read out
board Test Board
user ANN LEE
1 0/2001 public BOB RAY > ALL: Hello [1]
1 messages
"#;

/// Lines that are refused where no board is made, and ones that are on the board B, each by the first of the refusals
/// that apply; and on a damaged board.
const REFUSED: &str = r#"
> export Zed 0 out
refused notmade
> ack Zed 1
refused notmade
* board B
> export Zed 0 out
refused nouser
> export "" 2001 out
refused nouser
> export "Ann Lee" 0 out
refused limit
> export "Ann Lee" 2001 out
refused limit
> export "Ann Lee" 4294967295 out
refused limit
> read out
refused nofile out/CONTROL.DAT
> ack Zed 1
refused nouser
> ack "Ann Lee" 0
refused nopacket none
> ack "Ann Lee" 1
refused nopacket none
> export "Ann Lee" 2000 out
packet 1: 0 messages
> ack "Ann Lee" 0
refused nopacket 1
> ack "Ann Lee" 4294967295
refused nopacket 1
* damage 3 longer 1 120
> export Zed 0 out
damaged 3 1 rest
> ack Zed 1
damaged 3 1 rest
"#;

/// Words that are no command.
const OTHER_WORDS: &str = r#"
* board B
> export
usage
> export "Ann Lee"
usage
> export "Ann Lee" 10
usage
> export "Ann Lee" 10 out more
usage
> export "Ann Lee" ten out
usage
> export "Ann Lee" -1 out
usage
> export "Ann Lee" 4294967296 out
usage
> export "Ann Lee" 00000000001 out
usage
> export "Ann Lee" 10 a/b/c/d
usage
> export "Ann Lee" 10 ../out
usage
> export "Ann Lee" 10 ""
usage
> ack
usage
> ack "Ann Lee"
usage
> ack "Ann Lee" 1 2
usage
> ack "Ann Lee" one
usage
> ack "Ann Lee" 4294967296
usage
"#;

#[test]
fn mail_is_exported_or_refused(rt: HostRuntime) -> Result<(), Miss> {
    expect_transcripts(
        rt.alloc(),
        &[
            OFFERS,
            FIVE,
            PRIVATE,
            MEMBERS,
            CUT_SHORT,
            LIMITS,
            REFUSED,
            OTHER_WORDS,
        ],
    )
}

/// A subject of 30 bytes, which goes as a line before the text.
const LONG_SUBJECT: &str = r#"
* board B
* put minutes From: Bob Ray\nTo: All\nSubject: Minutes of the monthly meeting\n\nHi\n.\n
> import 0 minutes
imported 1 into 0
> export "Ann Lee" 10 out
packet 1: 1 messages
* packet out/MESSAGES.DAT
Produced by qwkdoor, packet 1
 1      09-09-0101:46ALL                      BOB RAY                  Minutes of the monthly me            0       2     \xE1\0\0\x01\0
Subject: Minutes of the monthly meeting\xE3\xE3Hi\xE3
> read out
board Test Board
user ANN LEE
1 0/1 public BOB RAY > ALL: Minutes of the monthly meeting [1]
1 messages
"#;

/// A name of 36 bytes and a subject of 72: exported, read, answered, uploaded, and exported again.
const ROUND: &str = r#"
* board B
* put letter From: Robert Bartholomew Ray of Greenfield\nTo: All\nSubject: abcdefghijklmnopqrstuvwxyz0123456789abcdefghijklmnopqrstuvwxyz0123456789\n\nFirst line\n.\n
* put thanks Thanks\n
> import 0 letter
imported 1 into 0
> export "Ann Lee" 10 out
packet 1: 1 messages
> read out 1
From: Robert Bartholomew Ray of Greenfield
To: ALL
Subject: abcdefghijklmnopqrstuvwxyz0123456789abcdefghijklmnopqrstuvwxyz0123456789
Date: 09-09-01 01:46
Conference: 0
Number: 1
Reference: 0

First line
> reply out 1 thanks R.MSG
replied to 1, 1 in R.MSG
> upload "Ann Lee" R.MSG
1 posted 0 2
posted 1 refused 0
> export "Ann Lee" 10 out
packet 2: 2 messages
> read out 2
From: ANN LEE
To: Robert Bartholomew Ray of Greenfield
Subject: abcdefghijklmnopqrstuvwxyz0123456789abcdefghijklmnopqrstuvwxyz0123456789
Date: 09-09-01 01:46
Conference: 0
Number: 2
Reference: 1

Thanks
"#;

#[test]
fn long_names_and_subjects_travel_whole(rt: HostRuntime) -> Result<(), Miss> {
    expect_transcript(rt.alloc(), LONG_SUBJECT)?;
    expect_transcript(rt.alloc(), ROUND)
}
