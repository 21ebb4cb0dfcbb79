//! Batches that are stopped at a call of the host, and with it all later ones.
use super::boards::expect_stops;
use std::alloc::Global;
use test_runs::{DAY, Miss, Steps, empty_host, empty_shelf, put_day};

/// Three commands, and the batch of them.
const THREE: &str = "enroll \"Ed Poe\" - 0,7\nimport 0 one\nkill 0 1\n";

const PUT: &str = r#"
* board B
* put three enroll "Ed Poe" - 0,7\nimport 0 one\nkill 0 1\n
"#;

#[test]
fn a_stopped_batch_leaves_the_board_between_its_commands(rt: HostRuntime) -> Result<(), Miss> {
    expect_stops(rt.alloc(), PUT, THREE, "batch three")
}

/// The boards of a day.
fn steps_of_a_day(alloc: Global) -> Result<Steps, Miss> {
    let mut shelf = empty_shelf(alloc);
    put_day(&mut shelf, alloc)?;
    Steps::of(alloc, empty_host(alloc), &mut shelf, DAY)
}

/// Stops a day at a call. What a stopped day has left on the shelf would change what the next one says, so it has a
/// shelf of its own.
fn expect_stopped_day(alloc: Global, steps: &mut Steps, call: u32) -> Result<bool, Miss> {
    let mut shelf = empty_shelf(alloc);
    put_day(&mut shelf, alloc)?;
    steps.expect_stop(alloc, &mut shelf, "batch day", call)
}

/// Stops it at each call in turn.
fn expect_stopped_days(alloc: Global, steps: &mut Steps) -> Result<(), Miss> {
    for call in 1..2000 {
        if expect_stopped_day(alloc, steps, call)? {
            return Ok(());
        }
    }
    Err(Miss::Broken("the day doesn't end"))
}

#[test]
fn a_stopped_day_leaves_the_board_between_its_commands(rt: HostRuntime) -> Result<(), Miss> {
    let mut steps = steps_of_a_day(rt.alloc())?;
    expect_stopped_days(rt.alloc(), &mut steps)
}
