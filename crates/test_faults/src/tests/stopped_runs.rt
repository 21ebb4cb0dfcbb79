//! Commands that are stopped at a call of the host, and with it all later ones.
use super::boards::expect_stops;
use std::alloc::Global;
use test_runs::{Miss, Status, empty_host, empty_shelf, run_to_fault, stops_at};

/// Stops a line at each call of the host in turn, on the board that a transcript leaves.
fn expect_line_stops(alloc: Global, transcript: &str, line: &str) -> Result<(), Miss> {
    expect_stops(alloc, transcript, line, line)
}

#[test]
fn a_first_call_that_fails_says_nothing(rt: HostRuntime) -> Result<(), Miss> {
    let alloc = rt.alloc();
    let start = empty_host(alloc);
    let mut shelf = empty_shelf(alloc);
    let plan = stops_at(alloc, Some(1));
    run_to_fault(alloc, &start, plan, &mut shelf, "check", Status::DiskFault)?;
    Ok(())
}

#[test]
fn a_stopped_init_leaves_the_board_before_or_after(rt: HostRuntime) -> Result<(), Miss> {
    expect_line_stops(rt.alloc(), "\n* setups\n", "init setup.txt")
}

#[test]
fn a_stopped_enroll_leaves_the_board_before_or_after(rt: HostRuntime) -> Result<(), Miss> {
    expect_line_stops(rt.alloc(), "\n* board B\n", r#"enroll "Ed Poe" - 0,7"#)
}

const IMPORTED: &str = r#"
* board B
* put to-ann From: Bob Ray\nTo: Ann Lee\nSubject: Hello\n\nFirst line\n.\n
> import 0 to-ann
imported 1 into 0
"#;

#[test]
fn a_stopped_export_leaves_the_board_before_or_after(rt: HostRuntime) -> Result<(), Miss> {
    expect_line_stops(rt.alloc(), IMPORTED, r#"export "Ann Lee" 10 out"#)
}

const EXPORTED: &str = r#"
* board B
* put to-ann From: Bob Ray\nTo: Ann Lee\nSubject: Hello\n\nFirst line\n.\n
> import 0 to-ann
imported 1 into 0
> export "Ann Lee" 10 out
packet 1: 1 messages
"#;

#[test]
fn a_stopped_ack_leaves_the_board_before_or_after(rt: HostRuntime) -> Result<(), Miss> {
    expect_line_stops(rt.alloc(), EXPORTED, r#"ack "Ann Lee" 1"#)
}

/// A packet of Ann's with a message to each of two conferences.
const PACKED: &str = r#"
* board B
* put to-ann From: Bob Ray\nTo: Ann Lee\nSubject: Hello\n\nFirst line\n.\n
* put to-bob From: Ann Lee\nTo: Bob Ray\nSubject: Hello\n\nHi\n.\n
* put net From: Ann Lee\nTo: Ann\n\nAnn@2:5020/400.1\nHi\n.\n
> import 0 to-ann
imported 1 into 0
> export "Ann Lee" 10 out
packet 1: 1 messages
> compose out 0 to-bob ANN.MSG
composed 1, 1 in ANN.MSG
> compose out 1 net ANN.MSG
composed 1, 2 in ANN.MSG
"#;

#[test]
fn a_stopped_upload_leaves_the_board_before_or_after(rt: HostRuntime) -> Result<(), Miss> {
    expect_line_stops(rt.alloc(), PACKED, r#"upload "Ann Lee" ANN.MSG"#)
}

/// A base of two messages, whose headers have no subfields and share a text.
const FOREIGN: &str = r#"
* board B
* put header JAM\0\x01\0\0\0
* add header 56 \0
* add header 1 \x03\0\0\0\0\0\0\0\0\0\0\0
* put old.JHR JAM\0
* add old.JHR 1020 \0
* join old.JHR 2 header
* put old.JDT Hi\r
* put old.JDX \0\0\0\0\0\x04\0\0\0\0\0\0L\x04\0\0
"#;

#[test]
fn a_stopped_adopt_leaves_the_board_before_or_after(rt: HostRuntime) -> Result<(), Miss> {
    expect_line_stops(rt.alloc(), FOREIGN, "adopt 7 old")
}

/// A packet of a message of an area, and of a net mail.
const NEIGHBOUR: &str = r#"
* setups
* add setup.txt 1 conference: 9 echo - FIDO\n
> init setup.txt
made 4 conferences
* add few.pkt 18 \0
* add few.pkt 1 \x02
* add few.pkt 39 \0
* put front \x02
* add front 33 \0
* join few.pkt 1 front
* add few.pkt 1 Ann Lee\0Joe\0Hi\0AREA:FIDO\rHello\r\0
* join few.pkt 1 front
* add few.pkt 1 Ann Lee\0Joe\0Hi\0Hello\r\0
"#;

#[test]
fn a_stopped_toss_leaves_the_board_before_or_after(rt: HostRuntime) -> Result<(), Miss> {
    expect_line_stops(rt.alloc(), NEIGHBOUR, "toss few.pkt")
}

/// A message and three answers, of which the second is deleted.
const KILLED: &str = r#"
* board B
* add answers 3 From: Bob Ray\nTo: All\nSubject: Hello\nReply: 0.1.TESTBBS\n\nFirst line\n.\n
> import 0 one
imported 1 into 0
> import 0 answers
imported 3 into 0
> kill 0 3
killed 0 3
"#;

#[test]
fn a_stopped_pack_leaves_the_board_before_or_after(rt: HostRuntime) -> Result<(), Miss> {
    expect_line_stops(rt.alloc(), KILLED, "pack 0")
}
