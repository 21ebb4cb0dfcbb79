//! Runs of the command by which deleted messages give their room back: `pack`.
use test_runs::{Miss, expect_transcripts};

/// A message and three answers, of which the second is deleted. Its header of 153 bytes and its text of 11 go, its record
/// becomes twice FFFFFFFFh, and the links lead past it. The next message gets a number that no message had.
const LINKED: &str = r#"
> pack 0
refused notmade
* board B
* add answers 3 From: Bob Ray\nTo: All\nSubject: Hello\nReply: 0.1.TESTBBS\n\nFirst line\n.\n
> pack 0
packed 0: 0
> import 0 one
imported 1 into 0
> import 0 answers
imported 3 into 0
> kill 0 3
killed 0 3
> pack 5
refused noconference
> pack 65536
refused noconference
> pack 1
packed 1: 0
* data 2 from 8 \x03\0\0\0\x03\0\0\0
> pack 0
packed 0: 1
> check
board TESTBBS
0 GENERAL: 4 slots, 3 live
1 NETMAIL: 0 slots, 0 live
7 NEWS: 0 slots, 0 live
4 users, 0 uploads, 4169 bytes
* data 2 from 8 \x04\0\0\0\x03\0\0\0
* data 2 from 1048 \0\0\0\0\x02\0\0\0\0\0\0\0
* data 2 from 1182 \x01\0\0\0\0\0\0\0\x04\0\0\0
* data 2 from 1335 \x01\0\0\0\0\0\0\0\0\0\0\0
* data 2 from 1359 \x04\0\0\0
* data 2 from 1371 \x16\0\0\0\x0B\0\0\0
* data 3 ends 0 First line\rFirst line\rFirst line\r
* data 4 ends 0 \x22\x8E\xE7\xC4\0\x04\0\0\x22\x8E\xE7\xC4\x86\x04\0\0\xFF\xFF\xFF\xFF\xFF\xFF\xFF\xFF\x22\x8E\xE7\xC4\x1F\x05\0\0
> pack 0
packed 0: 0
* data 2 from 8 \x04\0\0\0\x03\0\0\0
> kill 0 3
refused nomessage
> kill 0 4
killed 0 4
> pack 0
packed 0: 1
> check
board TESTBBS
0 GENERAL: 4 slots, 2 live
1 NETMAIL: 0 slots, 0 live
7 NEWS: 0 slots, 0 live
4 users, 0 uploads, 4005 bytes
> import 0 one
imported 1 into 0
* data 2 from 1359 \x05\0\0\0
* data 4 ends 16 \xFF\xFF\xFF\xFF\xFF\xFF\xFF\xFF\xFF\xFF\xFF\xFF\xFF\xFF\xFF\xFF\x22\x8E\xE7\xC4\x1F\x05\0\0
"#;

/// The original is deleted, and packed: its answers answer nothing then. What is offered stays.
const ANSWERED: &str = r#"
* board B
* add answers 3 From: Bob Ray\nTo: All\nSubject: Hello\nReply: 0.1.TESTBBS\n\nFirst line\n.\n
> import 0 one
imported 1 into 0
> import 0 answers
imported 3 into 0
> kill 0 1
killed 0 1
> export "Ann Lee" 10 out
packet 1: 3 messages
> pack 0
packed 0: 1
* data 2 from 1048 \0\0\0\0\0\0\0\0\0\0\0\0
> export "Ann Lee" 10 out
packet 2: 3 messages
> ack "Ann Lee" 2
acknowledged 2
> export "Ann Lee" 10 out
packet 3: 0 messages
"#;

/// A conference all of whose messages are packed has their numbers still.
const EMPTIED: &str = r#"
* board B
> import 0 two
imported 2 into 0
> kill 0 1
killed 0 1
> kill 0 2
killed 0 2
> pack 0
packed 0: 2
* data 2 from 8 \x04\0\0\0\0\0\0\0
* data 4 ends 0 \xFF\xFF\xFF\xFF\xFF\xFF\xFF\xFF\xFF\xFF\xFF\xFF\xFF\xFF\xFF\xFF
> check
board TESTBBS
0 GENERAL: 2 slots, 0 live
1 NETMAIL: 0 slots, 0 live
7 NEWS: 0 slots, 0 live
4 users, 0 uploads, 3680 bytes
"#;

/// Other words are no command.
const OTHER_WORDS: &str = r#"
> pack
usage
> pack all
usage
> pack 0 1
usage
> pack +0
usage
> pack 4294967296
usage
"#;

#[test]
fn deleted_messages_give_their_room_back(rt: HostRuntime) -> Result<(), Miss> {
    expect_transcripts(rt.alloc(), &[LINKED, ANSWERED, EMPTIED, OTHER_WORDS])
}
