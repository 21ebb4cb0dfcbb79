//! The command `scan`.
ghost use Rattle.std.specs.Prelude.{IsTrue};
ghost use Rattle.entry_runs.specs.Entry.{Serves};
ghost use Rattle.shelf_files.specs.Halts.{ShelfCauses, served};
ghost use Rattle.cmd_packets.specs.Scan.{scans, count_line};

use door_outside::{Shelf, ShelfName};
use offline_reader::{Scanned, scan_packet};
use shelf_files::{Halt, PACKET_LIMIT, Refusal};
use std::alloc::Global;

/// How many messages a packet's file has. Memory is taken for the name in a refusal alone.
pub fn scan<S: Shelf>(alloc: Global, shelf: &mut S, file: &ShelfName) -> Result<u32, Halt>
    ensures serves { IsTrue S.tells → Serves (scans file.now) (S.files shelf.old) (S.files shelf.new) (served count_line result) }
    ensures causes { ShelfCauses (S.faults shelf.old) (S.faults shelf.new) result }
{
    match scan_packet(shelf, file, PACKET_LIMIT) {
        Ok(Scanned::Count(count)) => Ok(count),
        Ok(Scanned::Missing) => Err(Halt::Refused(Refusal::NoFile(file.copy(alloc)?))),
        Ok(Scanned::TooLarge) => Err(Halt::Refused(Refusal::TooLarge(file.copy(alloc)?))),
        Ok(Scanned::Fault(fault)) => Err(Halt::Refused(Refusal::Broken(fault))),
        Err(_) => Err(Halt::ShelfFault),
    }
}
