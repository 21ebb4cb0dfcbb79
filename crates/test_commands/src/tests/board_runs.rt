//! Runs of the commands over a board: `init`, `enroll` and `check`.
use test_runs::{Miss, expect_transcripts};

/// The ledger of the new board has 119 bytes, and each of the three headers 1,024.
const MADE: &str = r#"
* setups
> check
refused notmade
> init long-id.txt
refused setup 5 id
> init none.txt
refused nofile none.txt
> check
refused notmade
> enroll "" - 5
refused notmade
> init setup.txt
made 3 conferences
> check
board TESTBBS
0 GENERAL: 0 slots, 0 live
1 NETMAIL: 0 slots, 0 live
7 NEWS: 0 slots, 0 live
0 users, 0 uploads, 3191 bytes
> init setup.txt
refused exists
> init none.txt
refused exists
> check
board TESTBBS
0 GENERAL: 0 slots, 0 live
1 NETMAIL: 0 slots, 0 live
7 NEWS: 0 slots, 0 live
0 users, 0 uploads, 3191 bytes
"#;

/// On the board B the users' records have 345 bytes more than the new board, and the eight last-read records 128. The
/// record of Ed Poe, a member of two conferences, has 85, and his last-read records 32. Each refusal is the first of
/// those that apply.
const ENROLLED: &str = r#"
* board B
> check
board TESTBBS
0 GENERAL: 0 slots, 0 live
1 NETMAIL: 0 slots, 0 live
7 NEWS: 0 slots, 0 live
4 users, 0 uploads, 3664 bytes
> enroll "" - 5
refused name
> enroll " Ann Lee" - 5
refused name
> enroll ABCDEFGHIJKLMNOPQRSTUVWXYZ - 0
refused name
> enroll "ANN LEE" - 5
refused dupuser
> enroll "cy day" n all
refused dupuser
> enroll "Ed Poe" - 5
refused noconference
> enroll "Ed Poe" - 0,2,7
refused noconference
> enroll "Ed Poe" - 65536
refused noconference
> check
board TESTBBS
0 GENERAL: 0 slots, 0 live
1 NETMAIL: 0 slots, 0 live
7 NEWS: 0 slots, 0 live
4 users, 0 uploads, 3664 bytes
> enroll "Ed Poe" - 7,0,0000000007
user 5 Ed Poe
> check
board TESTBBS
0 GENERAL: 0 slots, 0 live
1 NETMAIL: 0 slots, 0 live
7 NEWS: 0 slots, 0 live
5 users, 0 uploads, 3781 bytes
"#;

/// Other words are no command.
const OTHER_WORDS: &str = r#"
> check now
usage
> init
usage
> init setup.txt 1
usage
> init ../setup.txt
usage
> enroll
usage
> enroll "Ed Poe" -
usage
> enroll "Ed Poe" - 0 7
usage
> enroll "Ed Poe" "" 0
usage
> enroll "Ed Poe" N 0
usage
> enroll "Ed Poe" nn 0
usage
> enroll "Ed Poe" - ""
usage
> enroll "Ed Poe" - ALL
usage
> enroll "Ed Poe" - all,0
usage
> enroll "Ed Poe" - 0,
usage
> enroll "Ed Poe" - +0
usage
> enroll "Ed Poe" - 4294967296
usage
> enroll "Ed Poe" - 00000000000
usage
"#;

/// The journal is one byte, an O.
const CLOSED: &str = r#"
* board B
* damage 1 cut 0
* damage 1 longer 1 79
> check
board TESTBBS
0 GENERAL: 0 slots, 0 live
1 NETMAIL: 0 slots, 0 live
7 NEWS: 0 slots, 0 live
4 users, 0 uploads, 3664 bytes
> enroll "Ed Poe" n 1,7
user 5 Ed Poe
> check
board TESTBBS
0 GENERAL: 0 slots, 0 live
1 NETMAIL: 0 slots, 0 live
7 NEWS: 0 slots, 0 live
5 users, 0 uploads, 3781 bytes
"#;

/// The letters at the front of the ledger become QMDX.
const DAMAGED: &str = r#"
* board B
* damage 0 becomes 3 88
> check
damaged 0 0 magic
> init none.txt
damaged 0 0 magic
> enroll "Ann Lee" - 5
damaged 0 0 magic
> check
damaged 0 0 magic
"#;

#[test]
fn boards_are_made_and_users_enrolled(rt: HostRuntime) -> Result<(), Miss> {
    expect_transcripts(rt.alloc(), &[MADE, ENROLLED, OTHER_WORDS, CLOSED, DAMAGED])
}
