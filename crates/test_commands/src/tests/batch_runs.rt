//! Runs of batches.
use test_runs::{Miss, expect_transcripts, played};

/// What the day says, and the first subfields of its reply, which names the msgid of what it answers. Forty headers of
/// 76 bytes stand before it, with subfields of 57 and 58. Nine of them have numbers of one digit.
const SAID: &str = r#"
* day
> batch day
made 3 conferences
user 1 Ann Lee
user 2 Bob Ray
imported 40 into 0
packet 1: 40 messages
replied to 3, 1 in TESTBBS.MSG
1 posted 0 41
posted 1 refused 0
acknowledged 1
packet 2: 1 messages
board TESTBBS
0 GENERAL: 41 slots, 41 live
1 NETMAIL: 0 slots, 0 live
7 NEWS: 0 slots, 0 live
2 users, 1 uploads, 9552 bytes
* data 2 from 6451 \x02\0\0\0\x07\0\0\0Ann Lee\x03\0\0\0\x07\0\0\0BOB RAY
* data 2 from 6481 \x04\0\0\0\x0C\0\0\00.41.TESTBBS\x05\0\0\0\x0B\0\0\00.3.TESTBBS
"#;

/// Lines that are skipped, and words with spaces and quotes around them. Lines that are no command: a second word, a
/// return behind no line end, spaces alone, a quote that is open, one that isn't followed by a space, and a batch. What
/// stands behind isn't carried out. The batch `longest` is as long as a batch may be.
const LINE_RULES: &str = r#"
* put lines # check\n\ncheck\r\n"check"\n  check  \nkill 0 1\ncheck
* put fly #\n\nfly\ncheck\n
* put return check\r
* put spaces check\n  \ncheck\n
* put open list "a\nlist b"\n
* put behind "check"x\n
* put inner check\nbatch lines\n
* put none # nothing\r\n\n
* add longest 8 #\n
* add longest 69904 # 14 letters..\n
* join long 1 longest
* add long 1 \n
> batch lines
refused notmade
refused notmade
refused notmade
refused notmade
refused notmade
> batch fly
usage line 3
> batch return
usage line 1
> batch spaces
refused notmade
usage line 2
> batch open
usage line 1
> batch behind
usage line 1
> batch inner
refused notmade
usage line 2
> batch none
> batch missing
refused nofile missing
> batch long
refused toolarge long
> batch longest
> batch a b
usage
> fly
usage
"#;

/// A batch that an export of its own writes over.
const GOES_ON: &str = r#"
* board B
* put out/MESSAGES.DAT import 0 one\nexport "Ann Lee" 10 out\nimport 9 one\nkill 0 1\n
* put look check\nfly\n
> batch out/MESSAGES.DAT
imported 1 into 0
packet 1: 1 messages
refused noconference
killed 0 1
> batch out/MESSAGES.DAT
usage line 1
> batch look
board TESTBBS
0 GENERAL: 1 slots, 0 live
1 NETMAIL: 0 slots, 0 live
7 NEWS: 0 slots, 0 live
4 users, 0 uploads, 3817 bytes
usage line 2
"#;

#[test]
fn batches_are_carried_out(rt: HostRuntime) -> Result<(), Miss> {
    expect_transcripts(rt.alloc(), &[SAID, LINE_RULES, GOES_ON])
}

#[test]
fn a_batch_is_carried_out_by_files_in_short_pieces(rt: HostRuntime) -> Result<(), Miss> {
    for longest in [1, 2, 4095] {
        let mut stage = played(rt.alloc(), "\n")?;
        stage.shelf.shorten_pieces(longest);
        stage.play(rt.alloc(), SAID)?;
    }
    Ok(())
}
