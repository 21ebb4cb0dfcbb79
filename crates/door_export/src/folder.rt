// The two files of a packet, in their folder.
ghost use Rattle.std.specs.Prelude.{◌≡◌, IfOk, IsTrue, MatchResult};
ghost use Rattle.door_outside.specs.Cause.{HasCause};
ghost use Rattle.door_outside.specs.Name.{HasParts};
ghost use Rattle.door_outside.specs.Shelf.{SameBut};
ghost use Rattle.door_export.specs.Folder.{control_name as control_name_of, messages_name as messages_name_of, folder_names, with_packet};

use door_outside::{Shelf, ShelfFault, ShelfName, control_name, messages_name, write_file};
use std::alloc::{AllocError, Global};

/// The names of the two files.
#[derive(Debug, Drop)]
pub(crate) struct FolderNames {
    pub control: ShelfName,
    pub messages: ShelfName,
}

/// The names of the files of a packet in a folder.
pub(crate) fn names_in(alloc: Global, folder: &ShelfName) -> Result<FolderNames, AllocError>
    requires { HasParts 3 folder.now }
    ensures control { IfOk result (λ names. names.control ≡ control_name_of folder.now) }
    ensures messages { IfOk result (λ names. names.messages ≡ messages_name_of folder.now) }
{
    Ok(FolderNames {
        control: control_name(alloc, folder)?,
        messages: messages_name(alloc, folder)?,
    })
}

/// Writes CONTROL.DAT, and then MESSAGES.DAT. Where either fails, both may hold anything, and no other file has
/// changed.
pub(crate) fn write_packet<S: Shelf>(
    shelf: &mut S,
    names: &FolderNames,
    controls: &[u8],
    messages: &[u8],
) -> Result<(), ShelfFault>
    ensures done { IsTrue S.tells → (folder : _) → names.now.control ≡ control_name_of folder → names.now.messages ≡ messages_name_of folder → MatchResult result (λ _. S.files shelf.new ≡ with_packet folder controls.now messages.now (S.files shelf.old)) (λ _. SameBut (folder_names folder) (S.files shelf.old) (S.files shelf.new)) }
    ensures cause { HasCause (S.faults shelf.old) (S.faults shelf.new) result }
{
    write_file(shelf, &names.control, controls)?;
    write_file(shelf, &names.messages, messages)
}
