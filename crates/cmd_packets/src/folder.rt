//! A packet's folder on the shelf.
ghost use Rattle.std.specs.Prelude.{◌≡◌, ◌++◌, codes, IsTrue, IfOk};
ghost use Rattle.door_outside.specs.Name.{HasParts};
ghost use Rattle.shelf_files.specs.Halts.{Comes, ShelfCauses};
ghost use Rattle.cmd_packets.specs.Packets.{ControlOf, PacketOf, FolderOf, IsControl, ArePacket, IsFolder};

use crate::control_file::control_in;
use crate::packet_file::packet_in;
use door_outside::{Shelf, ShelfName, control_name, messages_name};
use qwk_blocks::QwkMessages;
use qwk_control::Control;
use shelf_files::Halt;
use std::alloc::Global;

/// What the two files of a packet's folder say.
#[derive(Drop)]
pub struct Packet {
    /// What CONTROL.DAT says.
    pub control: Control,
    /// The messages of MESSAGES.DAT.
    pub messages: QwkMessages,
}

/// What CONTROL.DAT of a packet's folder says, refused where it isn't there, is too long or has a fault.
fn control_of<S: Shelf>(alloc: Global, shelf: &mut S, folder: &ShelfName) -> Result<Control, Halt>
    requires { HasParts 3 folder.now }
    ensures control { IsTrue S.tells → Comes result (ControlOf (S.files shelf.old) (folder.now ++ codes "/CONTROL.DAT")) }
    ensures read { IfOk result IsControl }
    ensures unchanged { IsTrue S.tells → S.files shelf.new ≡ S.files shelf.old }
    ensures causes { ShelfCauses (S.faults shelf.old) (S.faults shelf.new) result }
{
    let name = control_name(alloc, folder)?;
    control_in(alloc, shelf, &name)
}

/// The messages of MESSAGES.DAT of a packet's folder, refused where it isn't there, is too long or is broken.
fn messages_of<S: Shelf>(
    alloc: Global,
    shelf: &mut S,
    folder: &ShelfName,
) -> Result<QwkMessages, Halt>
    requires { HasParts 3 folder.now }
    ensures messages { IsTrue S.tells → Comes result (PacketOf (S.files shelf.old) (folder.now ++ codes "/MESSAGES.DAT")) }
    ensures read { IfOk result ArePacket }
    ensures unchanged { IsTrue S.tells → S.files shelf.new ≡ S.files shelf.old }
    ensures causes { ShelfCauses (S.faults shelf.old) (S.faults shelf.new) result }
{
    let name = messages_name(alloc, folder)?;
    packet_in(alloc, shelf, &name)
}

/// The packet in a folder: CONTROL.DAT first, refused where it isn't there, is too long or has a fault, and
/// then MESSAGES.DAT, refused where it isn't there, is too long or is broken.
pub fn folder_in<S: Shelf>(alloc: Global, shelf: &mut S, folder: &ShelfName) -> Result<Packet, Halt>
    requires { HasParts 3 folder.now }
    ensures packet { IsTrue S.tells → Comes result (FolderOf (S.files shelf.old) folder.now) }
    ensures read { IfOk result IsFolder }
    ensures unchanged { IsTrue S.tells → S.files shelf.new ≡ S.files shelf.old }
    ensures causes { ShelfCauses (S.faults shelf.old) (S.faults shelf.new) result }
{
    let control = control_of(alloc, shelf, folder)?;
    let messages = messages_of(alloc, shelf, folder)?;
    Ok(Packet { control, messages })
}
