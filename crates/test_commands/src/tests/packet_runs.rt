//! Runs of the commands over packets.
use test_runs::{
    Miss, Status, empty_host, expect_transcripts, failing_shelf, fails_at, no_faults, put_packets,
    run_to_fault,
};

/// What `list` and `scan` say of each packet.
const PACKETS: &str = "
* packets
> list P1
1 0/1 public BOB RAY > ALL: Hello [1]
1 messages
> list nuls
1 0/1 public BOB RAY > ALL: Hello [1]
1 messages
> list p128
0 messages
> list header
1 0/1 public BOB RAY > ALL: Hello [0]
1 messages
> list p0
refused broken truncated 0
> list p127
refused broken truncated 0
> list X
refused nofile X
> list cut
refused broken truncated 384
> list zero
refused broken blocks 128
> list blank
refused broken blocks 128
> scan P1
1 messages
> scan p128
0 messages
> scan p0
refused broken truncated 0
> scan X
refused nofile X
> scan cut
refused broken truncated 384
> scan zero
refused broken blocks 128
";

/// What `read` says of a whole folder, and of ones in which each refusal comes first.
const FOLDERS: &str = "
* folders
> read out
board Test Board
user ANN LEE
1 0/1 public BOB RAY > ALL: Hello [1]
1 messages
> read out 1
From: BOB RAY
To: ALL
Subject: Hello
Date: 09-09-01 01:46
Conference: 0
Number: 1
Reference: 0

First line
> read none
refused nofile none/CONTROL.DAT
> read none 1
refused nofile none/CONTROL.DAT
> read short
refused control short 5
> read bare
refused nofile bare/MESSAGES.DAT
> read broken 9
refused broken truncated 128
> read out 2
refused nomessage
> read out 0000000000
refused nomessage
";

/// Other words are no command.
const OTHER_WORDS: &str = "
> fly
usage
> list
usage
> list P1 P1
usage
> list ../P1
usage
> scan
usage
> scan P1 P1
usage
> read
usage
> read a/b/c/d
usage
> read out 00000000001
usage
> read out 4294967296
usage
> read out -1
usage
> read out 1 1
usage
";

#[test]
fn packets_are_read_or_refused(rt: HostRuntime) -> Result<(), Miss> {
    expect_transcripts(rt.alloc(), &[PACKETS, FOLDERS, OTHER_WORDS])
}

#[test]
fn faults_of_the_first_call_end_the_run(rt: HostRuntime) -> Result<(), Miss> {
    let alloc = rt.alloc();
    let start = empty_host(alloc);
    let mut shelf = failing_shelf(alloc, 1)?;
    put_packets(&mut shelf, alloc)?;
    let (line, plan) = ("list P1", no_faults(alloc));
    run_to_fault(alloc, &start, plan, &mut shelf, line, Status::ShelfFault)?;
    let plan = fails_at(alloc, 1)?;
    run_to_fault(alloc, &start, plan, &mut shelf, line, Status::VoiceFault)?;
    Ok(())
}
