//! Boards whose files are damaged, and what `check` says of them.
use memory_outside::MemoryHost;
use std::alloc::Global;
use test_runs::{Miss, Stage, played};

/// Damages, and what is said of them. The byte 88 is `X`, and 120 is `x`.
const DAMAGES: &str = "\
0 becomes 0 88: damaged 0 0 magic
0 cut 23: damaged 0 0 short
0 becomes 4 9: damaged 0 0 version
0 becomes 6 0: damaged 0 0 count
0 longer 1 0: damaged 0 8 rest
2 becomes 12 3: damaged 2 0 active
2 becomes 1024 0: damaged 2 1 signature
2 becomes 1048 1: damaged 2 1 links
2 cut 1291: damaged 2 2 subfields
3 becomes 10 120: damaged 3 1 line
3 cut 21: damaged 3 2 short
3 longer 1 120: damaged 3 3 rest
4 cut 8: damaged 4 1 missing
4 cut 15: damaged 4 1 short
5 becomes 8 9: damaged 5 0 pointer
6 becomes 4 1: damaged 6 0 created
14 longer 1 120: damaged 14 0 rest
";

/// Looks whether a damage is named that a line begins with.
fn expect_damage(alloc: Global, whole: &MemoryHost, row: &str) -> Result<(), Miss> {
    let (damage, reply) = row.split_once(": ").ok_or("a damage says nothing")?;
    let transcript = format!(in alloc; "\n* damage {damage}\n> check\n{reply}\n")?;
    Stage::after(alloc, whole)?.play(alloc, transcript.as_str())
}

/// Looks whether each damage of a board is named.
fn expect_damages(alloc: Global, whole: &MemoryHost) -> Result<(), Miss> {
    for row in DAMAGES.lines() {
        expect_damage(alloc, whole, row)?;
    }
    Ok(())
}

const OFFERED: &str = r#"
* board B
> import 0 two
imported 2 into 0
> export "Ann Lee" 10 out
packet 1: 2 messages
"#;

/// What is said where an index has one slot more, whose message is gone.
const GONE: &str = "
* damage 4 longer 8 255
> check
board TESTBBS
0 GENERAL: 3 slots, 2 live
1 NETMAIL: 0 slots, 0 live
7 NEWS: 0 slots, 0 live
4 users, 0 uploads, 3978 bytes
";

/// The byte of the ledger that Ann's high in the first conference begins with becomes 3: the records before the users'
/// have 119 bytes, and 26 of hers stand before her highs.
const HIGH: &str = "
* damage 0 becomes 145 3
> check
damaged 0 4 high
";

#[test]
fn each_damage_is_named(rt: HostRuntime) -> Result<(), Miss> {
    let alloc = rt.alloc();
    let mut stage = played(alloc, OFFERED)?;
    expect_damages(alloc, &stage.host)?;
    Stage::after(alloc, &stage.host)?.play(alloc, GONE)?;
    // A high above the slots is named last, so beside any other damage it isn't.
    stage.play(alloc, HIGH)?;
    expect_damages(alloc, &stage.host)
}
