//! Calls that fail alone.
use super::boards::{Boards, boards_of};
use memory_outside::{ImageChoice, MemoryHost};
use std::alloc::Global;
use test_runs::{Miss, Status, fails_at, run_twice};

const IMPORT: &str = "import 0 one";

/// Looks at a host on which `check` followed the import without a restart: the message is there where only the output
/// failed, and a further crash leaves the same board.
fn expect_board(
    alloc: Global,
    host: &MemoryHost,
    ended: Status,
    boards: &mut Boards,
) -> Result<(), Miss> {
    let Boards { steps, shelf } = boards;
    let Some(place) = steps.find(host) else {
        return Err(Miss::Broken("a fault leaves another board"));
    };
    if ended != Status::DiskFault && place != 1 {
        return Err(Miss::Broken("the import isn't done"));
    }
    if steps.after_crash(alloc, host, ImageChoice::Synced, shelf)? != place {
        return Err(Miss::Broken("a crash leaves another board"));
    }
    Ok(())
}

/// Looks at a host on which `check` followed an import of which one call failed, and answers whether none did any more.
/// Then each board was found.
fn is_done(
    alloc: Global,
    host: &MemoryHost,
    call: u32,
    (ended, checked): (Status, Status),
    boards: &mut Boards,
) -> Result<bool, Miss> {
    if ended == Status::Done && boards.steps.all_found() {
        return Ok(true);
    }
    let is_fault = ended == Status::DiskFault || ended == Status::VoiceFault;
    if !is_fault || checked != Status::Done {
        return Err(Miss::stopped(alloc, IMPORT, call, "it ends otherwise")?);
    }
    expect_board(alloc, host, ended, boards)?;
    Ok(false)
}

/// Carries out the import with one call that fails, and `check` behind it.
fn expect_fault(alloc: Global, boards: &mut Boards, call: u32) -> Result<bool, Miss> {
    let (shelf, start) = (&mut boards.shelf, boards.steps.start()?);
    let plan = fails_at(alloc, call)?;
    let (host, ended, checked) = run_twice(alloc, start, plan, shelf, IMPORT, "check")?;
    is_done(alloc, &host, call, (ended, checked), boards)
}

/// The same with each call in turn.
fn expect_faults(alloc: Global, boards: &mut Boards) -> Result<(), Miss> {
    for call in 1..2000 {
        if expect_fault(alloc, boards, call)? {
            return Ok(());
        }
    }
    Err(Miss::Broken("the import doesn't end"))
}

#[test]
fn a_board_is_whole_after_a_call_that_failed(rt: HostRuntime) -> Result<(), Miss> {
    let mut boards = boards_of(rt.alloc(), "\n* board B\n", IMPORT)?;
    expect_faults(rt.alloc(), &mut boards)
}
