//! Runs of `sample`.
use test_runs::{Miss, expect_transcript, expect_transcripts};

/// The message is to the second user. At last come its subfields and its text.
const SAMPLED: &str = r#"
* setups
> sample 1 1
refused notmade
> init setup.txt
made 3 conferences
> enroll "Ann Lee" n all
user 1 Ann Lee
> enroll "Bob Ray" - 0
user 2 Bob Ray
> sample 1 0
refused count
> sample 1 5001
refused count
> sample 1 1
sampled 1
> check
board TESTBBS
0 GENERAL: 0 slots, 0 live
1 NETMAIL: 1 slots, 1 live
7 NEWS: 0 slots, 0 live
2 users, 0 uploads, 3644 bytes
* data 6 from 1100 \x02\0\0\0\x07\0\0\0Sampler\x03\0\0\0\x07\0\0\0Bob Ray
* data 6 from 1130 \x04\0\0\0\x0B\0\0\01.1.TESTBBS
* data 6 ends 1149 \x06\0\0\0\x08\0\0\0Sample 1
* data 7 ends 0 Line 1 of seed 1\rLine 1 of seed 1\rLine 1 of seed 1\rLine 1 of seed 1\r
"#;

/// What 5,000 messages of the seed 7 are on a board of one user, who reads all of them in three packets.
const MANY: &str = r#"
* setups
* put many init setup.txt\nenroll "Sam Sysop" n all\nsample 7 5000\n
* add many 1 export "Sam Sysop" 2000 out\nack "Sam Sysop" 1\n
* add many 1 export "Sam Sysop" 2000 out\nack "Sam Sysop" 2\n
* add many 1 export "Sam Sysop" 2000 out\ncheck\n
> batch many
made 3 conferences
user 1 Sam Sysop
sampled 5000
packet 1: 2000 messages
acknowledged 1
packet 2: 2000 messages
acknowledged 2
packet 3: 1000 messages
board TESTBBS
0 GENERAL: 1671 slots, 1671 live
1 NETMAIL: 1646 slots, 1646 live
7 NEWS: 1683 slots, 1683 live
1 users, 0 uploads, 1237952 bytes
"#;

#[test]
fn five_thousand_messages_are_sampled_alike(rt: HostRuntime) -> Result<(), Miss> {
    expect_transcript(rt.alloc(), MANY)?;
    expect_transcript(rt.alloc(), MANY)
}

/// Of a hundred messages of the seed 1, 28 are for the first conference.
const FULL: &str = r#"
* board B
* add many 9990 From: Bob Ray\nTo: All\nSubject: Hello\n\nFirst line\n.\n
> import 0 many
imported 9990 into 0
> sample 1 100
refused slots 10018
> sample 1 10
sampled 10
"#;

#[test]
fn messages_are_sampled_or_refused(rt: HostRuntime) -> Result<(), Miss> {
    expect_transcripts(rt.alloc(), &[SAMPLED, FULL])
}
