//! Uploads whose shelf fails.
use super::four::{FOUR, UPLOADED};
use memory_outside::{ImageChoice, MemoryHost};
use std::alloc::Global;
use test_runs::{Miss, Stage, Status, Steps, failing_shelf, no_faults, played, run_to_fault};

const UPLOAD: &str = r#"upload "Ann Lee" rep"#;

/// What the last run has synced, and a shelf with a reply packet, of which a call fails.
fn stage_of_packet(alloc: Global, last: &MemoryHost, call: u32) -> Result<Stage, Miss> {
    let mut stage = Stage::after(alloc, last)?;
    stage.shelf = failing_shelf(alloc, call)?;
    stage.play(alloc, FOUR)?;
    Ok(stage)
}

/// Looks whether an upload of which a call of the shelf fails says nothing, and leaves the last board.
fn expect_last(alloc: Global, steps: &mut Steps, call: u32) -> Result<(), Miss> {
    let stage = &mut stage_of_packet(alloc, steps.last()?, call)?;
    let plan = no_faults(alloc);
    let fault = Status::ShelfFault;
    let host = run_to_fault(alloc, &stage.host, plan, &mut stage.shelf, UPLOAD, fault)?;
    if steps.after_crash(alloc, &host, ImageChoice::Written, &mut stage.shelf)? != 1 {
        return Err(Miss::Broken("the board isn't the one before"));
    }
    Ok(())
}

#[test]
fn an_upload_whose_shelf_failed_changes_nothing(rt: HostRuntime) -> Result<(), Miss> {
    let alloc = rt.alloc();
    let mut stage = played(alloc, "\n* board B\n")?;
    let mut steps = Steps::of(alloc, stage.host, &mut stage.shelf, "import 0 one")?;
    // The packet is one piece, and the next one is its end.
    expect_last(alloc, &mut steps, 1)?;
    expect_last(alloc, &mut steps, 2)?;
    stage_of_packet(alloc, steps.last()?, 3)?.play(alloc, UPLOADED)
}
