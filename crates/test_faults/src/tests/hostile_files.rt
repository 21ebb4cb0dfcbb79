//! Files that are made to mislead a reader, each refused by its first fault.
use test_runs::{Miss, expect_transcript};

/// The packet `short` lacks the last byte of its header. The one of `count` says 999,999 blocks, and has two. The
/// CONTROL.DAT in `far` has 70,001 conferences.
const FILES: &str = r#"
* board B
* blocks short
Produced by qwkdoor, packet 1
* add short 1  1      09-09-0101:46ALL                      BOB RAY                  Hello                                0       2     \xE1\0\0\x01\0
* length short 255
* blocks count
Produced by qwkdoor, packet 1
 1      09-09-0101:46ALL                      BOB RAY                  Hello                                0       999999\xE1\0\0\x01\0
* length count 256
* put twice From: A\nFrom: B\n
* put end From: A\nTo: B\n\na\n
* put far/CONTROL.DAT B\nC\nP\nS\n1,ID\nT\nU\nM\n0\n1\n70000\n
> list short
refused broken truncated 128
> list count
refused broken truncated 128
> scan count
refused broken truncated 128
> import 0 twice
refused sheet 2 twice
> import 0 end
refused sheet 5 end
> read far
refused control number 11
"#;

#[test]
fn a_hostile_file_is_refused(rt: HostRuntime) -> Result<(), Miss> {
    expect_transcript(rt.alloc(), FILES)
}
