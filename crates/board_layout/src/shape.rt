ghost use Rattle.std.specs.Prelude.{◌≡◌, ◌≤◌, ◌<◌, length, IfOk};
ghost use Rattle.board_ledger.specs.Limits.{user_limit};
ghost use Rattle.board_layout.specs.Board.{readers_from, shape_of};

use board_ledger::{Ledger, User};
use jam_base::{Reader, Readers, Shape};
use jam_records::Kind;
use std::alloc::{AllocError, Global};

/// The members of the conference in a place among users, of whom the first has the id 1.
fn readers_of(alloc: Global, users: &[User], place: u8) -> Result<Readers, AllocError>
    requires place { place < 64 }
    requires few { length users.now ≤ user_limit }
    ensures { IfOk result (λ readers. readers ≡ readers_from place 1 users.now) }
{
    let mut readers = Readers::new(alloc);
    for (i, user) in users.iter().enumerate() {
        if user.is_member(u32::from(place)) {
            let name = user.name.copy(alloc)?;
            let id = i as u32 + 1;
            readers.add(alloc, Reader { id, name })?;
        }
    }
    Ok(readers)
}

/// What a ledger of at most 500 users says of the conference in a place, from 0 to 63, of this kind: its
/// readers are the members, by id.
///
/// The error comes where there is no memory.
pub fn shape_at(alloc: Global, ledger: &Ledger, place: u8, kind: Kind) -> Result<Shape, AllocError>
    requires place { place < 64 }
    requires few { length ledger.now.users ≤ user_limit }
    ensures { IfOk result (λ shape. shape ≡ shape_of ledger.now place kind) }
{
    Ok(Shape {
        place,
        created: ledger.created,
        kind,
        readers: readers_of(alloc, ledger.users.as_slice(), place)?,
    })
}
