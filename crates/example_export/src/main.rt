//! Makes a board in memory by a batch of commands, and exports a user's mail onto a shelf in memory.
#![tactic(auto)]

ghost use Rattle.std.specs.Prelude.{IsTrue};
ghost use Rattle.intent_journal.specs.Hosts.{IsSettled};

use anyhow::{Context, Result, bail, ensure};
use door_export::{Exported, export};
use door_outside::{Host, Shelf, ShelfName};
use mail_board::{Board, Loaded};
use mail_cli::{Words, run};
use memory_outside::{CallNumbers, FaultPlan, MemoryHost, MemoryShelf};
use std::alloc::Global;

/// The files that the shelf begins with.
const SETUP: &str =
    "board: Test Board\ncity: Springfield\nphone: 555-0100\nsysop: Sam Sysop\nbbsid: TESTBBS\nserial: 12345\nzones: 1 2\nconference: 0 local p GENERAL\n";

const SHEET: &str = "From: Bob Ray\nTo: All\nSubject: Hello\n\nFirst line\n.\n";

const BATCH: &str = "init setup\nenroll \"Ann Lee\" - all\nimport 0 sheet\n";

/// A plan by which no call fails.
fn no_faults(alloc: Global) -> FaultPlan {
    let fails = CallNumbers::new(alloc);
    FaultPlan { fails, stop: None }
}

/// The packet of Ann's mail, in the folder `out`.
fn mail<H: Host, S: Shelf>(alloc: Global, host: &mut H, shelf: &mut S, now: u32) -> Result<Exported>
    requires { IsTrue H.tells → IsSettled (H.disk host.old) }
{
    let folder = ShelfName::parse(alloc, b"out")?.context("no name of a folder")?;
    ensure!(folder.is_folder(), "too many parts for a folder");
    let Loaded::Ready(mut board) = Board::load(alloc, host)? else {
        bail!("there is no board");
    };
    Ok(export(alloc, &mut board, host, shelf, b"Ann Lee", 10, &folder, now)?)
}

/// Makes the board by the batch, and exports Ann's mail, at a moment in Unix seconds.
fn show<H: Host, S: Shelf>(rt: &HostRuntime, host: &mut H, shelf: &mut S, now: u32) -> Result<()>
    requires { IsTrue H.tells → IsSettled (H.disk host.old) }
{
    let words = Words::of_line(rt.alloc(), b"batch batch")?.context("no words")?;
    println!(rt; "batch: {:?}", run(rt.alloc(), &words, host, shelf, now))?;
    let made = mail(rt.alloc(), host, shelf, now)?;
    Ok(println!(rt; "packet {}: {} messages", made.packet, made.count)?)
}

fn main(rt: HostRuntime) -> Result<()> {
    let mut shelf = MemoryShelf::new(rt.alloc(), no_faults(rt.alloc()));
    for (name, text) in [("setup", SETUP), ("sheet", SHEET), ("batch", BATCH)] {
        let name = ShelfName::parse(rt.alloc(), name.as_bytes())?.context("no name of a file")?;
        shelf.put(&name, text.as_bytes())?;
    }
    let mut host = MemoryHost::new(rt.alloc(), no_faults(rt.alloc()));
    show(&rt, &mut host, &mut shelf, 1_000_000_000)
}
