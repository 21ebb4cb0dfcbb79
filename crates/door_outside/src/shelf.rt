ghost use Rattle.std.specs.Prelude.{◌≡◌, ℕ, Bool, length, IfOk, IsTrue};
ghost use Rattle.door_outside.specs.Cause.{HasCause};
ghost use Rattle.door_outside.specs.Shelf.{ShelfFiles, held, PieceIs, PieceWithin, BeginsFile, Appends};

use crate::fault::ShelfFault;
use crate::name::ShelfName;

/// What a shelf gave of a file.
#[derive(Clone, Copy, Debug, PartialEq, Eq)]
pub enum Piece {
    /// The shelf has no file of that name.
    Missing,
    /// So many bytes were given.
    Count(usize),
}

/// Files under names, which are read in pieces and written whole. The clauses on what they hold stand
/// behind `tells`; those on the count of faults hold for every shelf.
pub trait Shelf {
    /// Whether shelves of this type tell what they hold.
    ghost tells: { Bool };

    /// The files by their names, where the shelf tells them.
    ghost files: { Self → ShelfFiles };

    /// How many calls failed. It never falls.
    ghost faults: { Self → ℕ };

    /// Puts bytes of the file, from a place on, first into the buffer, and answers how many it gave. They may be fewer
    /// than there is room for. No bytes into a buffer that has room are the end of the file.
    fn piece(&mut self, name: &ShelfName, at: u32, buf: &mut [u8]) -> Result<Piece, ShelfFault>
        ensures bound { IfOk result (PieceWithin (length buf.old)) }
        ensures value { IsTrue tells → IfOk result (PieceIs (held (files self.old) name.now) at buf.old buf.new) }
        ensures unchanged { IsTrue tells → files self.new ≡ files self.old }
        ensures cause { HasCause (faults self.old) (faults self.new) result };

    /// Makes the file empty, new or old. Where it fails, the file is as it was or empty.
    fn begin(&mut self, name: &ShelfName) -> Result<(), ShelfFault>
        ensures done { IsTrue tells → BeginsFile name.now (files self.old) (files self.new) result }
        ensures cause { HasCause (faults self.old) (faults self.new) result };

    /// Adds bytes at the end of the file, and makes it first where it is missing. Where it fails, a front
    /// of them was added.
    fn append(&mut self, name: &ShelfName, bytes: &[u8]) -> Result<(), ShelfFault>
        ensures done { IsTrue tells → Appends name.now bytes.now (files self.old) (files self.new) result }
        ensures cause { HasCause (faults self.old) (faults self.new) result };
}
