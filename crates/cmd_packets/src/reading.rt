//! The two forms of the command `read`.
ghost use Rattle.std.specs.Prelude.{◌≡◌, IsTrue, IsErrOf};
ghost use Rattle.door_outside.specs.Name.{HasParts};
ghost use Rattle.entry_runs.specs.Entry.{Serves};
ghost use Rattle.offline_reader.specs.Letter.{message_in};
ghost use Rattle.offline_reader.specs.Listing.{folder_listing};
ghost use Rattle.shelf_files.specs.Halts.{Comes, ShelfCauses, done, replied, served};
ghost use Rattle.cmd_packets.specs.Read.{reads, shows, shown_reply};

use crate::folder::{Packet, folder_in};
use byte_lists::Bytes;
use door_outside::{Shelf, ShelfName};
use offline_reader::{ShowError, list_folder, show_message};
use qwk_blocks::QwkMessages;
use shelf_files::{Halt, Refusal};
use std::alloc::Global;

/// The listing of a packet, or want of memory.
fn listed(alloc: Global, packet: &Packet) -> Result<Bytes, Halt>
    ensures text { Comes result (λ read. replied (λ text. text) read ≡ done (folder_listing packet.now.control packet.now.messages)) }
    ensures no_fault { ¬ IsErrOf result Halt.ShelfFault }
{
    Ok(list_folder(alloc, &packet.control, &packet.messages)?)
}

/// The message in a place of a packet, from 1, refused where there is none.
fn message_shown(alloc: Global, messages: &QwkMessages, place: u32) -> Result<Bytes, Halt>
    ensures text { Comes result (λ read. replied (λ text. text) read ≡ shown_reply (message_in messages.now place)) }
    ensures no_fault { ¬ IsErrOf result Halt.ShelfFault }
{
    match show_message(alloc, messages, place) {
        Ok(text) => Ok(text),
        Err(ShowError::NoMessage) => Err(Halt::Refused(Refusal::NoMessage)),
        Err(ShowError::OutOfMemory) => Err(Halt::OutOfMemory),
    }
}

/// The listing of a packet's folder.
pub fn read<S: Shelf>(alloc: Global, shelf: &mut S, folder: &ShelfName) -> Result<Bytes, Halt>
    requires { HasParts 3 folder.now }
    ensures serves { IsTrue S.tells → Serves (reads folder.now) (S.files shelf.old) (S.files shelf.new) (served (λ text. text) result) }
    ensures causes { ShelfCauses (S.faults shelf.old) (S.faults shelf.new) result }
{
    let packet = folder_in(alloc, shelf, folder)?;
    listed(alloc, &packet)
}

/// The message in a place of a packet's folder, from 1.
pub fn show<S: Shelf>(
    alloc: Global,
    shelf: &mut S,
    folder: &ShelfName,
    place: u32,
) -> Result<Bytes, Halt>
    requires { HasParts 3 folder.now }
    ensures serves { IsTrue S.tells → Serves (shows folder.now place) (S.files shelf.old) (S.files shelf.new) (served (λ text. text) result) }
    ensures causes { ShelfCauses (S.faults shelf.old) (S.faults shelf.new) result }
{
    let packet = folder_in(alloc, shelf, folder)?;
    message_shown(alloc, &packet.messages, place)
}
