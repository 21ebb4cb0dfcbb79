//! Uploads that are refused, each by the first refusal that applies.
use test_runs::{Miss, expect_transcripts};

/// Where no board is made, and on the board B. The file `largest` is as long as a packet may be.
const REFUSED: &str = r#"
> upload Zed missing
refused notmade
* board B
* add largest 1048576 \x20
* add huge 1048577 \x20
* put nothing
* put short TESTBBS
* blocks nobody
\x20
 0      09-09-0101:46BOB RAY                  ANN LEE                  Hello                                0       2     \xE1\0\0\x01\0
* blocks cut
OTHER
 0      09-09-0101:46BOB RAY                  ANN LEE                  Hello                                0       2     \xE1\0\0\x01\0
* blocks uncounted
TESTBBS
\x20
* blocks other
OTHER
 0      09-09-0101:46BOB RAY                  ANN LEE                  Hello                                0       2     \xE1\0\0\x01\0
Hi\xE3
> upload Zed missing
refused nouser
> upload "" missing
refused nouser
> upload "Ann Lee" missing
refused nofile missing
> upload "Ann Lee" huge
refused toolarge huge
> upload "Ann Lee" largest
refused noboardid
> upload "Ann Lee" nothing
refused broken truncated 0
> upload "Ann Lee" short
refused broken truncated 0
> upload "Ann Lee" nobody
refused noboardid
> upload "Ann Lee" cut
refused broken truncated 128
> upload "Ann Lee" uncounted
refused broken blocks 128
> upload "Ann Lee" other
refused board
> check
board TESTBBS
0 GENERAL: 0 slots, 0 live
1 NETMAIL: 0 slots, 0 live
7 NEWS: 0 slots, 0 live
4 users, 0 uploads, 3664 bytes
* damage 3 longer 1 120
> upload Zed missing
damaged 3 1 rest
"#;

/// Other words upload nothing.
const OTHER_WORDS: &str = r#"
* board B
> upload
usage
> upload "Ann Lee"
usage
> upload "Ann Lee" rep more
usage
> upload "Ann Lee" ../rep
usage
> upload "Ann Lee" ""
usage
"#;

#[test]
fn uploads_are_refused_in_order(rt: HostRuntime) -> Result<(), Miss> {
    expect_transcripts(rt.alloc(), &[REFUSED, OTHER_WORDS])
}
