//! The boards between commands, and the shelf that the commands are carried out with.
use memory_outside::MemoryShelf;
use std::alloc::Global;
use test_runs::{Miss, Steps, played};

/// The boards before commands and after each of them, and the shelf as they leave it.
#[derive(Drop)]
pub struct Boards {
    pub steps: Steps,
    pub shelf: MemoryShelf,
}

/// Carries out each line of a text on the board that a transcript leaves.
pub fn boards_of(alloc: Global, transcript: &str, lines: &str) -> Result<Boards, Miss> {
    let stage = played(alloc, transcript)?;
    let mut shelf = stage.shelf;
    let steps = Steps::of(alloc, stage.host, &mut shelf, lines)?;
    Ok(Boards { steps, shelf })
}

/// Stops a line, which carries out these lines, at each call of the host in turn, on the board that a transcript leaves.
pub fn expect_stops(alloc: Global, transcript: &str, lines: &str, line: &str) -> Result<(), Miss> {
    let mut boards = boards_of(alloc, transcript, lines)?;
    boards.steps.expect_stops(alloc, &mut boards.shelf, line)
}
