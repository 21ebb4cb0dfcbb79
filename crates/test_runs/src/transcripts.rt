//! Commands of a transcript, with what they say.
use crate::miss::Miss;
use crate::outside::no_faults;
use crate::runs::{expect_said, expect_status, run_image, run_next, said_since};
use mail_cli::Status;
use memory_outside::{ImageChoice, MemoryHost, MemoryShelf};
use std::alloc::Global;

/// What stands before each command line of a transcript.
pub(crate) const PROMPT: &str = "\n> ";

/// How a run ends after one line more of what it says.
fn status_behind(line: &str, so_far: Status) -> Status {
    if line.starts_with("refused ") {
        Status::Refused
    } else if line.starts_with("damaged ") {
        Status::Damaged
    } else if line == "usage" || line.starts_with("usage line ") {
        Status::Usage
    } else {
        so_far
    }
}

/// How a run ends that says this.
fn status_of(reply: &str) -> Status {
    let mut status = Status::Done;
    for line in reply.split('\n') {
        status = status_behind(line, status);
    }
    status
}

/// Looks whether a host and a shelf had the memory for each call.
fn expect_fed(
    alloc: Global,
    host: &MemoryHost,
    shelf: &MemoryShelf,
    line: &str,
) -> Result<(), Miss> {
    if host.starved() > 0 || shelf.starved() > 0 {
        return Err(Miss::starved(alloc, line)?);
    }
    Ok(())
}

/// What a line said. How it ended has to follow from that, and no memory may be wanting.
fn reply_on(
    alloc: Global,
    host: &MemoryHost,
    last: &MemoryHost,
    shelf: &MemoryShelf,
    line: &str,
    ended: Status,
) -> Result<String, Miss> {
    let said = said_since(host, last).ok_or("less was said than before")?;
    let reply = String::from_utf8_lossy(alloc, said)?;
    expect_status(alloc, line, ended, status_of(reply.as_str()))?;
    expect_fed(alloc, host, shelf, line)?;
    Ok(reply)
}

/// Runs a line on what the last run has synced, and answers what it says. How it ends has to follow from that, and no
/// memory may be wanting.
pub fn reply_of(
    alloc: Global,
    last: &MemoryHost,
    shelf: &mut MemoryShelf,
    line: &str,
) -> Result<String, Miss> {
    let (host, ended) = run_next(alloc, last, no_faults(alloc), shelf, line)?;
    reply_on(alloc, &host, last, shelf, line, ended)
}

/// Looks at what a line said and how it ended, and whether memory was wanting.
fn expect_reply(
    alloc: Global,
    host: &MemoryHost,
    last: &MemoryHost,
    shelf: &MemoryShelf,
    (line, reply): (&str, &str),
    ended: Status,
) -> Result<(), Miss> {
    expect_said(alloc, host, last, line, reply)?;
    expect_status(alloc, line, ended, status_of(reply))?;
    expect_fed(alloc, host, shelf, line)
}

/// Runs a line at a moment on what the last run has synced, and looks at what it says and how it ends.
fn run_line(
    alloc: Global,
    last: &MemoryHost,
    shelf: &mut MemoryShelf,
    now: u32,
    line: &str,
    reply: &str,
) -> Result<MemoryHost, Miss> {
    let plan = no_faults(alloc);
    let (host, ended) = run_image(alloc, last, ImageChoice::Synced, plan, shelf, line, now)?;
    expect_reply(alloc, &host, last, shelf, (line, reply), ended)?;
    Ok(host)
}

/// Runs a command of a transcript, whose last line has no line end.
pub(crate) fn run_command(
    alloc: Global,
    last: &MemoryHost,
    shelf: &mut MemoryShelf,
    now: u32,
    command: &str,
) -> Result<MemoryHost, Miss> {
    let Some((line, said)) = command.split_once('\n') else {
        return run_line(alloc, last, shelf, now, command, "");
    };
    let mut reply = String::from_str(alloc, said)?;
    reply.push_str("\n")?;
    run_line(alloc, last, shelf, now, line, reply.as_str())
}
