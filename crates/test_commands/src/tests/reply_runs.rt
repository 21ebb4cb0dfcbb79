//! Runs of the commands by which a caller writes back: `reply` and `compose`.
use test_runs::{Miss, expect_transcripts};

/// A message is replied to twice.
const TWICE: &str = r#"
* folders
* put text Thanks\n
> reply out 1 text TESTBBS.MSG
replied to 1, 1 in TESTBBS.MSG
* packet TESTBBS.MSG
TESTBBS
 0      09-09-0101:46BOB RAY                  ANN LEE                  Hello                                1       2     \xE1\0\0\x01\0
Thanks\xE3
> reply out 1 text TESTBBS.MSG
replied to 1, 2 in TESTBBS.MSG
* packet TESTBBS.MSG
TESTBBS
 0      09-09-0101:46BOB RAY                  ANN LEE                  Hello                                1       2     \xE1\0\0\x01\0
Thanks\xE3
 0      09-09-0101:46BOB RAY                  ANN LEE                  Hello                                1       2     \xE1\0\0\x02\0
Thanks\xE3
"#;

/// A message whose number field doesn't read, of the conference 7, and the reply of a user with a name of 26 bytes.
const UNNUMBERED: &str = r#"
* put text Thanks\n
* put odd/CONTROL.DAT Test Board\nSpringfield\n555-0100\nSam Sysop\n12345,TESTBBS\n09-09-2001,01:46:40\n
* add odd/CONTROL.DAT 1 ABCDEFGHIJKLMNOPQRSTUVWXYZ\n\n0\n1\n0\n0\nGENERAL\n
* blocks odd/MESSAGES.DAT
\x20
*none   09-09-0101:46ALL                      BOB RAY                  Hello                                0       2     \xE1\x07\0\x01\0
Thanks\xE3
> reply odd 1 text R
replied to 1, 1 in R
* packet R
TESTBBS
+7      09-09-0101:46BOB RAY                  ABCDEFGHIJKLMNOPQRSTUVWXYHello                                0       2     \xE1\x07\0\x01\0
Thanks\xE3
"#;

/// Lines that write nothing, each with the first of the refusals that apply. The text `full` is as long as a text may
/// be.
const REFUSED: &str = r#"
* folders
* put text Thanks\n
* put e3 \xE3\n
* put lone lone\rreturn\n
* add full 16383 x
* add full 1 \n
* add long 16383 x
* add long 1 \n\n
* add cut 127 \x20
* blocks nobody
\x20
\x20
* blocks broken
OTHER
\x20
* blocks other
OTHER
> reply no 1 none cut
refused nofile no/CONTROL.DAT
> reply bare 1 none cut
refused nofile bare/MESSAGES.DAT
> reply out 0 none cut
refused nomessage
> reply out 2 none cut
refused nomessage
> reply out 1 none cut
refused nofile none
> reply out 1 e3 cut
refused text 1
> reply out 1 lone cut
refused text 1
> reply out 1 long cut
refused text 1
> reply out 1 full cut
refused broken truncated 0
> reply out 1 text cut
refused broken truncated 0
> reply out 1 text nobody
refused noboardid
> reply out 1 text broken
refused broken blocks 128
> reply out 1 text other
refused board
> compose no 0 none cut
refused nofile no/CONTROL.DAT
* packet other
OTHER
> reply out 1 full new
replied to 1, 1 in new
"#;

/// A reply packet of 4,094 messages, of which the first has two blocks of text, and into which one more fits.
const FULL: &str = r#"
* folders
* put text Thanks\n
* blocks R
TESTBBS
 1      09-09-0101:46ALL                      BOB RAY                  Hello                                0       3     \xE1\0\0\x01\0
1234567890123456789012345678901234567890123456789012345678901234567890123456789012345678901234567890123456789012345678901234567\xE3
Last\xE3
* blocks reply
 0      09-09-0101:46BOB RAY                  ANN LEE                  Hello                                1       2     \xE1\0\0\x01\0
Thanks\xE3
* join R 4093 reply
> reply out 1 text R
replied to 1, 4095 in R
* length R 1048576
> reply out 1 text R
refused toolarge R
* length R 1048576
"#;

/// Lines that compose, the message that the sheet of the example of net mail makes, and the first of the refusals that
/// apply to others.
const COMPOSED: &str = r#"
* folders
* put net From: Ann Lee\nTo: Ann\nSubject: Net\n\nAnn@2:5020/400.1\nHi\n.\n
* put bad From: A\nSubject: x\n\n
* put long From: A\nTo: B\nSubject: 1234567890123456789012345\xE3\n\n.\n
* put empty
> compose out 1 net R1.MSG
composed 1, 1 in R1.MSG
> compose out 7 empty R1.MSG
composed 0, 1 in R1.MSG
> compose out 5 none R1.MSG
refused noconference
> compose out 65536 net R1.MSG
refused noconference
> compose out 1 none R1.MSG
refused nofile none
> compose out 1 bad R1.MSG
refused sheet 3 missing
> compose out 1 long R1.MSG
refused text 1
* packet R1.MSG
TESTBBS
 1      09-09-0101:46Ann                      ANN LEE                  Net                                  0       2     \xE1\x01\0\x01\0
Ann@2:5020/400.1\xE3Hi\xE3
"#;

/// Other words write nothing back.
const OTHER_WORDS: &str = "
> reply out 1 text
usage
> reply out 1 text R more
usage
> reply out one text R
usage
> reply a/b/c/d 1 text R
usage
> reply out 1 ../text R
usage
> reply out 1 text .R
usage
> compose out 1 sheet
usage
> compose out -1 sheet R
usage
> compose a/b/c/d 1 sheet R
usage
";

#[test]
fn replies_are_written_or_refused(rt: HostRuntime) -> Result<(), Miss> {
    expect_transcripts(
        rt.alloc(),
        &[TWICE, UNNUMBERED, REFUSED, FULL, COMPOSED, OTHER_WORDS],
    )
}
