//! Exports whose shelf fails.
use memory_outside::MemoryHost;
use std::alloc::Global;
use test_runs::{Miss, Stage, Status, failing_shelf, no_faults, played, run_to_fault};

const ONE: &str = "
* board B
> import 0 one
imported 1 into 0
";

/// The export of which a call of the shelf is to fail, and where none does.
const EXPORT: &str = r#"export "Ann Lee" 10 out"#;

const WHOLE: &str = r#"
> export "Ann Lee" 10 out
packet 1: 1 messages
"#;

/// What follows an export whose shelf failed: the offer is kept, and its messages are offered again.
const AGAIN: &str = r#"
> export "Ann Lee" 10 out
packet 2: 1 messages
> read out
board Test Board
user ANN LEE
1 0/1 public BOB RAY > ALL: Hello [1]
1 messages
"#;

/// What the last run has synced, and an empty shelf, of which a call fails.
fn stage_of_fault(alloc: Global, last: &MemoryHost, call: u32) -> Result<Stage, Miss> {
    let mut stage = Stage::after(alloc, last)?;
    stage.shelf = failing_shelf(alloc, call)?;
    Ok(stage)
}

/// Exports to a shelf of which a call fails, and again.
fn export_twice(alloc: Global, last: &MemoryHost, call: u32) -> Result<(), Miss> {
    let mut stage = stage_of_fault(alloc, last, call)?;
    let plan = no_faults(alloc);
    let fault = Status::ShelfFault;
    stage.host = run_to_fault(alloc, last, plan, &mut stage.shelf, EXPORT, fault)?;
    stage.play(alloc, AGAIN)
}

#[test]
fn an_export_whose_shelf_failed_is_done_again(rt: HostRuntime) -> Result<(), Miss> {
    let alloc = rt.alloc();
    let last = played(alloc, ONE)?.host;
    // Each of the two files is begun, and filled.
    for call in 1..5 {
        export_twice(alloc, &last, call)?;
    }
    stage_of_fault(alloc, &last, 5)?.play(alloc, WHOLE)
}
