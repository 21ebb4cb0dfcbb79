//! Runs on a board of version 1 that are stopped, and recoveries behind them that are stopped too.
use super::boards::{Boards, boards_of};
use super::stopped_recoveries::expect_recoveries;
use memory_outside::{ImageChoice, MemoryHost};
use std::alloc::Global;
use test_runs::{Miss, OLD_BOARD, OLD_LEDGER, Stage, Status, played, run_next, stops_at};

const IMPORT: &str = "import 7 hello.txt";

/// The board with its ledger of version 1.
fn old_board(alloc: Global) -> Result<Stage, Miss> {
    let mut stage = played(alloc, OLD_BOARD)?;
    stage.play(alloc, OLD_LEDGER)?;
    Ok(stage)
}

/// What is read and written until the board is migrated.
#[test]
fn a_stopped_migration_leaves_the_board(rt: HostRuntime) -> Result<(), Miss> {
    let alloc = rt.alloc();
    let old = old_board(alloc)?;
    let mut boards = boards_of(alloc, OLD_BOARD, "check")?;
    expect_recoveries(alloc, &old.host, "check", &mut boards)
}

/// Looks at an import that was stopped at a call: in each image the next `check` finds the board before it or after it.
fn expect_board(
    alloc: Global,
    host: &MemoryHost,
    call: u32,
    boards: &mut Boards,
) -> Result<(), Miss> {
    let Boards { steps, shelf } = boards;
    steps.after_crash(alloc, host, ImageChoice::Synced, shelf)?;
    steps.after_crash(alloc, host, ImageChoice::Written, shelf)?;
    steps.after_crash(alloc, host, ImageChoice::Mixed(call), shelf)?;
    Ok(())
}

/// Stops the import at a call, and answers whether it ended before that. Then each board was found.
fn expect_stop(
    alloc: Global,
    old: &MemoryHost,
    call: u32,
    boards: &mut Boards,
) -> Result<bool, Miss> {
    let plan = stops_at(alloc, Some(call));
    let (host, ended) = run_next(alloc, old, plan, &mut boards.shelf, IMPORT)?;
    expect_board(alloc, &host, call, boards)?;
    Ok(ended == Status::Done && boards.steps.all_found())
}

/// Stops it at each call.
fn expect_stops(alloc: Global, old: &MemoryHost, boards: &mut Boards) -> Result<(), Miss> {
    for call in 1..2000 {
        if expect_stop(alloc, old, call, boards)? {
            return Ok(());
        }
    }
    Err(Miss::Broken("the import doesn't end"))
}

#[test]
fn a_stopped_import_leaves_an_old_board_before_or_after(rt: HostRuntime) -> Result<(), Miss> {
    let alloc = rt.alloc();
    let old = old_board(alloc)?;
    let mut boards = boards_of(alloc, OLD_BOARD, IMPORT)?;
    expect_stops(alloc, &old.host, &mut boards)
}
