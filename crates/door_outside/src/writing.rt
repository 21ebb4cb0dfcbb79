//! A file that is written on the shelf.
ghost use Rattle.std.specs.Prelude.{◌≡◌, [], ◌∷◌, IsTrue, MatchResult};
ghost use Rattle.std.specs.FinMap as map;
ghost use Rattle.door_outside.specs.Cause.{HasCause};
ghost use Rattle.door_outside.specs.Shelf.{SameBut};

use crate::fault::ShelfFault;
use crate::name::ShelfName;
use crate::shelf::Shelf;

/// Writes a file, new or old. Where that fails, it may hold anything, and no other file has changed: `ShelfFault` comes only
/// where the shelf's count of faults rose.
pub fn write_file<S: Shelf>(shelf: &mut S, name: &ShelfName, bytes: &[u8]) -> Result<(), ShelfFault>
    ensures done { IsTrue S.tells → MatchResult result (λ _. S.files shelf.new ≡ map.insert (S.files shelf.old) name.now bytes.now) (λ _. SameBut (name.now ∷ []) (S.files shelf.old) (S.files shelf.new)) }
    ensures cause { HasCause (S.faults shelf.old) (S.faults shelf.new) result }
{
    shelf.begin(name)?;
    shelf.append(name, bytes)
}
