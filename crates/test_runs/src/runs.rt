//! Runs of the program over a host and a shelf in memory.
ghost use Rattle.std.specs.Prelude.{IfOk};
ghost use Rattle.memory_outside.specs.MemoryHost.{disk_of};
ghost use Rattle.intent_journal.specs.Hosts.{IsSettled};

use crate::miss::Miss;
use mail_cli::{Status, Words, run};
use memory_outside::{FaultPlan, ImageChoice, MemoryHost, MemoryShelf};
use std::alloc::{AllocError, Global};

/// 2001-09-09 01:46:40 UTC.
pub(crate) const NOW: u32 = 1_000_000_000;

/// The words of a line.
fn words_of(alloc: Global, line: &str) -> Result<Words, Miss> {
    let words = Words::of_line(alloc, line.as_bytes())?;
    Ok(words.ok_or("a quote is open")?)
}

/// A host on a crash image of another, whose calls fail by a plan.
#[tactic(auto, using(intent_journal::proofs::Hosts::at_rest_is_settled))]
fn after_crash(
    alloc: Global,
    host: &MemoryHost,
    choice: ImageChoice,
    plan: FaultPlan,
) -> Result<MemoryHost, AllocError>
    ensures { IfOk result (λ host. IsSettled (disk_of host)) }
{
    host.after_crash(alloc, choice, plan)
}

/// Runs a line at a moment on a crash image of a host, with calls that fail by a plan, and answers the host after it
/// and how the run ends.
pub(crate) fn run_image(
    alloc: Global,
    last: &MemoryHost,
    choice: ImageChoice,
    plan: FaultPlan,
    shelf: &mut MemoryShelf,
    line: &str,
    now: u32,
) -> Result<(MemoryHost, Status), Miss> {
    let words = words_of(alloc, line)?;
    let mut host = after_crash(alloc, last, choice, plan)?;
    let status = run(alloc, &words, &mut host, shelf, now);
    Ok((host, status))
}

/// Runs two lines on what the last run has synced, the second one on the host that the first one leaves, without a
/// restart, with calls that fail by a plan. Answers the host after both, and how each run ends.
pub fn run_twice(
    alloc: Global,
    last: &MemoryHost,
    plan: FaultPlan,
    shelf: &mut MemoryShelf,
    first: &str,
    second: &str,
) -> Result<(MemoryHost, Status, Status), Miss> {
    let (first, second) = (words_of(alloc, first)?, words_of(alloc, second)?);
    let mut host = after_crash(alloc, last, ImageChoice::Synced, plan)?;
    let first = run(alloc, &first, &mut host, shelf, NOW);
    let second = run(alloc, &second, &mut host, shelf, NOW);
    Ok((host, first, second))
}

/// Runs a line on a crash image of a host, with calls that fail by a plan, and answers the host after it and how
/// the run ends.
pub fn run_after_crash(
    alloc: Global,
    last: &MemoryHost,
    choice: ImageChoice,
    plan: FaultPlan,
    shelf: &mut MemoryShelf,
    line: &str,
) -> Result<(MemoryHost, Status), Miss> {
    run_image(alloc, last, choice, plan, shelf, line, NOW)
}

/// Runs a line on what the last run has synced.
pub fn run_next(
    alloc: Global,
    last: &MemoryHost,
    plan: FaultPlan,
    shelf: &mut MemoryShelf,
    line: &str,
) -> Result<(MemoryHost, Status), Miss> {
    run_after_crash(alloc, last, ImageChoice::Synced, plan, shelf, line)
}

/// What was said after the last run.
pub(crate) fn said_since<'a>(host: &'a MemoryHost, last: &MemoryHost) -> Option<&'a [u8]> {
    host.said().get(last.said().len()..)
}

/// Whether exactly this was said after the last run, and no memory was wanting.
pub(crate) fn has_said(host: &MemoryHost, last: &MemoryHost, reply: &str) -> bool {
    said_since(host, last) == Some(reply.as_bytes()) && host.starved() == 0
}

/// Looks whether a line said exactly this, and no memory was wanting.
pub(crate) fn expect_said(
    alloc: Global,
    host: &MemoryHost,
    last: &MemoryHost,
    line: &str,
    reply: &str,
) -> Result<(), Miss> {
    let said = said_since(host, last).ok_or("less was said than before")?;
    if said != reply.as_bytes() {
        return Err(Miss::said(alloc, line, said, reply)?);
    }
    if host.starved() > 0 {
        return Err(Miss::starved(alloc, line)?);
    }
    Ok(())
}

/// Looks how a line ended.
pub(crate) fn expect_status(
    alloc: Global,
    line: &str,
    ended: Status,
    wanted: Status,
) -> Result<(), Miss> {
    if ended != wanted {
        return Err(Miss::ended(alloc, line, ended, wanted)?);
    }
    Ok(())
}

/// Runs a line on what the last run has synced, with calls that fail by a plan: it says nothing, and ends with this
/// fault.
pub fn run_to_fault(
    alloc: Global,
    last: &MemoryHost,
    plan: FaultPlan,
    shelf: &mut MemoryShelf,
    line: &str,
    fault: Status,
) -> Result<MemoryHost, Miss> {
    let (host, ended) = run_next(alloc, last, plan, shelf, line)?;
    expect_status(alloc, line, ended, fault)?;
    expect_said(alloc, &host, last, line, "")?;
    Ok(host)
}
