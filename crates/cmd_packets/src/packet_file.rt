ghost use Rattle.std.specs.Prelude.{◌≡◌, IsTrue, IfOk};
ghost use Rattle.shelf_files.specs.Halts.{Comes, ShelfCauses};
ghost use Rattle.cmd_packets.specs.Packets.{PacketOf, ArePacket};

use door_outside::{Shelf, ShelfName};
use qwk_blocks::{QwkError, QwkMessages, read_messages};
use shelf_files::{Halt, PACKET_LIMIT, Refusal, file_in};
use std::alloc::Global;

/// The messages of a packet's file, refused where it isn't there, is too long or is broken.
pub fn packet_in<S: Shelf>(
    alloc: Global,
    shelf: &mut S,
    name: &ShelfName,
) -> Result<QwkMessages, Halt>
    ensures packet { IsTrue S.tells → Comes result (PacketOf (S.files shelf.old) name.now) }
    ensures read { IfOk result ArePacket }
    ensures unchanged { IsTrue S.tells → S.files shelf.new ≡ S.files shelf.old }
    ensures causes { ShelfCauses (S.faults shelf.old) (S.faults shelf.new) result }
{
    let bytes = file_in(alloc, shelf, name, PACKET_LIMIT)?;
    match read_messages(alloc, bytes.as_slice()) {
        Ok(messages) => Ok(messages),
        Err(QwkError::Fault(fault)) => Err(Halt::Refused(Refusal::Broken(fault))),
        Err(QwkError::OutOfMemory) => Err(Halt::OutOfMemory),
    }
}
