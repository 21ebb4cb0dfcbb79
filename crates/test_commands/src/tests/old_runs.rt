//! Boards that version 1.0 of the program left, and what the commands make of them.
use memory_outside::MemoryHost;
use std::alloc::Global;
use test_runs::{Miss, OLD_BOARD, OLD_LEDGER, Stage, expect_transcript, played};

/// What is no command, and what touches no board, leaves the ledger of version 1, of 314 bytes. The first command that
/// touches the board migrates it, whether it is refused or not: each of the four users has 48 bytes more then.
const MIGRATED: &str = r#"
> fly
usage
> list none
refused nofile none
* data 0 has 314
> init setup.txt
refused exists
* data 0 has 506
* data 0 from 0 QMDL\x02\0
> check
board TESTBBS
0 GENERAL: 41 slots, 40 live
1 NETMAIL: 0 slots, 0 live
7 NEWS: 1 slots, 1 live
4 users, 1 uploads, 9958 bytes
* data 0 has 506
"#;

/// The offers that were open are open still.
const ACKNOWLEDGED: &str = r#"
> ack "Cy Day" 1
refused nopacket 2
> ack "Cy Day" 2
acknowledged 2
> ack "Bob Ray" 1
acknowledged 1
> ack "Sam Sysop" 1
refused nopacket none
> export "Ann Lee" 5 out
packet 3: 5 messages
> ack "Ann Lee" 2
acknowledged 2
> ack "Ann Lee" 3
acknowledged 3
> export "Ann Lee" 2000 out
packet 4: 26 messages
"#;

/// The board B with a ledger of version 1, of 272 bytes: the first command finds it with the bytes that it has in version
/// 2, in which its users have 192 more, and leaves it so.
const B: &str = r#"
* board B
* ledger QMDL\x01\0\x03\0\x04\0\x02\0\0\0\0\0\0\xCA\x9A;90\0\0\x0A\0Test Board\x0B\0Springfield\x08\0555-0100\x09\0Sam Sysop\x07\0TESTBBS\x01\0\x02\0\0\0\0\x02\x07\0GENERAL\x01\0\x02\0\x07\0NETMAIL\x07\0\0\x01\x04\0NEWS\x07\0Ann Lee\x01\0\0\0\0\0\0\0\0\x07\0\0\0\0\0\0\0\0\0\0\0\0\0\0\0\0\0\0\0\x07\0Bob Ray\0\0\0\0\0\0\0\0\0\x01\0\0\0\0\0\0\0\0\0\0\0\0\0\0\0\0\0\0\0\x09\0Sam Sysop\x01\0\0\0\0\0\0\0\0\x07\0\0\0\0\0\0\0\0\0\0\0\0\0\0\0\0\0\0\0\x06\0Cy Day\0\0\0\0\0\0\0\0\0\x01\0\0\0\0\0\0\0\0\0\0\0\0\0\0\0\0\0\0\0
* data 0 has 272
> check
board TESTBBS
0 GENERAL: 0 slots, 0 live
1 NETMAIL: 0 slots, 0 live
7 NEWS: 0 slots, 0 live
4 users, 0 uploads, 3664 bytes
* data 0 has 464
* data 0 from 0 QMDL\x02\0
"#;

/// The first offer of a user is the last packet or none in version 1.
const DAMAGED: &str = "
* damage 0 becomes 133 1
> check
damaged 0 4 offer
";

/// Plays a transcript on the board with the ledger of version 1.
fn expect_old(alloc: Global, board: &MemoryHost, transcript: &str) -> Result<(), Miss> {
    let mut stage = Stage::after(alloc, board)?;
    stage.play(alloc, OLD_LEDGER)?;
    stage.play(alloc, transcript)
}

#[test]
fn an_old_board_is_migrated(rt: HostRuntime) -> Result<(), Miss> {
    let alloc = rt.alloc();
    expect_transcript(alloc, B)?;
    let stage = played(alloc, OLD_BOARD)?;
    expect_old(alloc, &stage.host, MIGRATED)?;
    expect_old(alloc, &stage.host, ACKNOWLEDGED)?;
    expect_old(alloc, &stage.host, DAMAGED)
}
