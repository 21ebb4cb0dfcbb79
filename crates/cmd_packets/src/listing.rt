//! The command `list`.
ghost use Rattle.std.specs.Prelude.{IsTrue};
ghost use Rattle.entry_runs.specs.Entry.{Serves};
ghost use Rattle.shelf_files.specs.Halts.{ShelfCauses, served};
ghost use Rattle.cmd_packets.specs.List.{lists};

use crate::packet_file::packet_in;
use byte_lists::Bytes;
use door_outside::{Shelf, ShelfName};
use offline_reader::list_packet;
use shelf_files::Halt;
use std::alloc::Global;

/// The listing of a packet's file.
pub fn list<S: Shelf>(alloc: Global, shelf: &mut S, file: &ShelfName) -> Result<Bytes, Halt>
    ensures serves { IsTrue S.tells → Serves (lists file.now) (S.files shelf.old) (S.files shelf.new) (served (λ text. text) result) }
    ensures causes { ShelfCauses (S.faults shelf.old) (S.faults shelf.new) result }
{
    let messages = packet_in(alloc, shelf, file)?;
    Ok(list_packet(alloc, &messages)?)
}
