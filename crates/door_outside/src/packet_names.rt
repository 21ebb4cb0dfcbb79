//! The names of the two files of a packet, in their folder.
ghost use Rattle.std.specs.Prelude.{◌≡◌, ◌++◌, codes, IfOk};
ghost use Rattle.door_outside.specs.Name.{HasParts};

use crate::name::ShelfName;
use std::alloc::{AllocError, Global};

/// The name of CONTROL.DAT in a folder, which has at most 3 parts. The error comes where there is no memory.
pub fn control_name(alloc: Global, folder: &ShelfName) -> Result<ShelfName, AllocError>
    requires { HasParts 3 folder.now }
    ensures { IfOk result (λ name. name ≡ folder.now ++ codes "/CONTROL.DAT") }
{
    folder.file(alloc, b"CONTROL.DAT")
}

/// The name of MESSAGES.DAT in a folder, which has at most 3 parts. The error comes where there is no memory.
pub fn messages_name(alloc: Global, folder: &ShelfName) -> Result<ShelfName, AllocError>
    requires { HasParts 3 folder.now }
    ensures { IfOk result (λ name. name ≡ folder.now ++ codes "/MESSAGES.DAT") }
{
    folder.file(alloc, b"MESSAGES.DAT")
}
