//! The type 2 packet under a name.
ghost use Rattle.std.specs.Prelude.{◌≡◌, IsTrue, IfOk};
ghost use Rattle.shelf_files.specs.Halts.{Comes, ShelfCauses};
ghost use Rattle.cmd_toss.specs.PacketFiles.{FtsPacketOf, fts_halt};
ghost use Rattle.cmd_toss.specs.Tossing.{AreRead};

use door_outside::{Shelf, ShelfName};
use fts_packet::{FtsError, FtsPacket, read_packet};
use shelf_files::{FILE_LIMIT, Halt, Refusal, file_in};
use std::alloc::Global;

/// Why a command stops at a fault of a packet.
fn halt_of(error: FtsError) -> Halt
    ensures { result ≡ fts_halt error }
{
    match error {
        FtsError::Fault { rule, at } => Halt::Refused(Refusal::Packet { rule, at }),
        FtsError::OutOfMemory => Halt::OutOfMemory,
    }
}

/// The messages of the packet under a name, refused where it isn't there, is too long or has a fault.
pub(crate) fn packet_in<S: Shelf>(
    alloc: Global,
    shelf: &mut S,
    name: &ShelfName,
) -> Result<FtsPacket, Halt>
    ensures packet { IsTrue S.tells → Comes result (FtsPacketOf (S.files shelf.old) name.now) }
    ensures read { IfOk result AreRead }
    ensures unchanged { IsTrue S.tells → S.files shelf.new ≡ S.files shelf.old }
    ensures causes { ShelfCauses (S.faults shelf.old) (S.faults shelf.new) result }
{
    let bytes = file_in(alloc, shelf, name, FILE_LIMIT)?;
    match read_packet(alloc, bytes.as_slice()) {
        Ok(messages) => Ok(messages),
        Err(error) => Err(halt_of(error)),
    }
}
