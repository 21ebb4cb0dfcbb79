//! Writing a reply packet under its name.
ghost use Rattle.std.specs.Prelude.{IsTrue};
ghost use Rattle.shelf_files.specs.Halts.{ShelfCauses};
ghost use Rattle.cmd_replies.specs.RepFile.{MayBeWritten};
ghost use Rattle.cmd_replies.specs.Writing.{Puts};

use crate::enlarging::Enlarged;
use door_outside::{Shelf, ShelfName, write_file};
use rep_packet::write_rep;
use shelf_files::Halt;
use std::alloc::Global;

/// How many messages a command added to a reply packet, and how many it has then.
#[derive(Clone, Copy, PartialEq, Eq)]
pub struct Added {
    /// How many were added.
    pub messages: u64,
    /// How many there are.
    pub total: u64,
}

/// Writes a reply packet under its name. All memory is taken before the first write.
pub(crate) fn put<S: Shelf>(
    alloc: Global,
    shelf: &mut S,
    name: &ShelfName,
    made: &Enlarged,
) -> Result<Added, Halt>
    requires { MayBeWritten made.now }
    ensures puts { IsTrue S.tells → Puts name.now made.now (S.files shelf.old) (S.files shelf.new) result }
    ensures causes { ShelfCauses (S.faults shelf.old) (S.faults shelf.new) result }
{
    let bytes = write_rep(alloc, &made.rep)?;
    match write_file(shelf, name, bytes.as_slice()) {
        Ok(()) => Ok(Added {
            messages: made.added,
            total: made.rep.messages.len() as u64,
        }),
        Err(_) => Err(Halt::ShelfFault),
    }
}
