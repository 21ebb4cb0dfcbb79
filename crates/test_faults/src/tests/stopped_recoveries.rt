//! Recoveries that are stopped too.
use super::boards::{Boards, boards_of};
use memory_outside::{ImageChoice, MemoryHost};
use std::alloc::Global;
use test_runs::{Miss, Status, played, run_after_crash, run_next, stops_at};

const BOARD: &str = "\n* board B\n";

const IMPORT: &str = "import 0 one";

/// A crash, and the board that it left.
#[derive(Clone, Copy)]
struct Crash {
    choice: ImageChoice,
    place: usize,
}

/// Looks whether a second crash leaves the board that the first one left, after a `check` that was stopped at a call.
fn expect_same(
    alloc: Global,
    host: &MemoryHost,
    place: usize,
    call: u32,
    boards: &mut Boards,
) -> Result<(), Miss> {
    let Boards { steps, shelf } = boards;
    if steps.after_crash(alloc, host, ImageChoice::Mixed(2), shelf)? != place {
        return Err(Miss::stopped(alloc, "check", call, "a crash leaves another board")?);
    }
    Ok(())
}

/// Stops the `check` after a crash at a call, and answers whether it ended before that.
fn expect_stop(
    alloc: Global,
    stopped: &MemoryHost,
    crash: Crash,
    call: u32,
    boards: &mut Boards,
) -> Result<bool, Miss> {
    let plan = stops_at(alloc, Some(call));
    let shelf = &mut boards.shelf;
    let (host, ended) = run_after_crash(alloc, stopped, crash.choice, plan, shelf, "check")?;
    expect_same(alloc, &host, crash.place, call, boards)?;
    Ok(ended == Status::Done)
}

/// Stops it at each of its calls.
fn expect_stops(
    alloc: Global,
    stopped: &MemoryHost,
    choice: ImageChoice,
    boards: &mut Boards,
) -> Result<(), Miss> {
    let place = boards
        .steps
        .after_crash(alloc, stopped, choice, &mut boards.shelf)?;
    for call in 1..2000 {
        if expect_stop(alloc, stopped, Crash { choice, place }, call, boards)? {
            return Ok(());
        }
    }
    Err(Miss::stopped(alloc, "check", 2000, "it doesn't end")?)
}

/// Looks at a run that was stopped, where it has written something, and answers whether it ended before that. Then
/// each board was found.
fn is_done(
    alloc: Global,
    host: &MemoryHost,
    ended: Status,
    boards: &mut Boards,
) -> Result<bool, Miss> {
    if ended == Status::Done && boards.steps.all_found() {
        return Ok(true);
    }
    if host.wrote() > 0 {
        expect_stops(alloc, host, ImageChoice::Written, boards)?;
        expect_stops(alloc, host, ImageChoice::Mixed(1), boards)?;
    }
    Ok(false)
}

/// Stops a line at a call.
fn expect_recovery(
    alloc: Global,
    start: &MemoryHost,
    line: &str,
    call: u32,
    boards: &mut Boards,
) -> Result<bool, Miss> {
    let plan = stops_at(alloc, Some(call));
    let (host, ended) = run_next(alloc, start, plan, &mut boards.shelf, line)?;
    is_done(alloc, &host, ended, boards)
}

/// Stops a line at each of its calls on a host, and then the `check` behind that at each of its own.
pub fn expect_recoveries(
    alloc: Global,
    start: &MemoryHost,
    line: &str,
    boards: &mut Boards,
) -> Result<(), Miss> {
    for call in 1..2000 {
        if expect_recovery(alloc, start, line, call, boards)? {
            return Ok(());
        }
    }
    Err(Miss::stopped(alloc, line, 2000, "it doesn't end")?)
}

#[test]
fn a_stopped_recovery_leaves_the_board_that_the_first_crash_left(
    rt: HostRuntime,
) -> Result<(), Miss> {
    let stage = played(rt.alloc(), BOARD)?;
    let mut boards = boards_of(rt.alloc(), BOARD, IMPORT)?;
    expect_recoveries(rt.alloc(), &stage.host, IMPORT, &mut boards)
}
