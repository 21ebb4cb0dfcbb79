// The slots of a conference after a pack, with the bodies of the messages that stay, fetched from the host.
ghost use Rattle.std.specs.Prelude.{◌≡◌, ◌<◌, Err, length, map, All, IfOk, IsFalse, IsTrue};
ghost use Rattle.board_layout.specs.Board as Boards;
ghost use Rattle.board_layout.specs.Outlines.{HasBody};
ghost use Rattle.board_layout.specs.Rules.{HasReadCause};
ghost use Rattle.door_outside.specs.Disk.{Unchanged};
ghost use Rattle.board_layout.specs.jam_base.Slots.{numbered};
ghost use Rattle.jam_layout.specs.Outlines.{slot_outline};
ghost use Rattle.jam_records.specs.declared.damage.Damage.{Damage};
ghost use Rattle.mail_board.specs.Held.{Holds, RestsOn};
ghost use Rattle.board_layout.specs.Lookups.{slots_in};
ghost use Rattle.slot_changes.specs.Packed.{slot_packed, slots_packed};

use crate::counting::is_deleted;
use board_layout::Base;
use door_outside::Host;
use jam_records::{Slot, Slots};
use mail_board::{Board, ReadError};
use std::alloc::Global;

/// The slot of a number after a pack: Gone where it holds a deleted message, which isn't fetched. The base is that of
/// the place.
fn fetched<H: Host>(
    alloc: Global,
    board: &Board,
    host: &mut H,
    base: &Base,
    place: u8,
    number: u32,
) -> Result<Slot, ReadError>
    requires base { base.now.conference.slots ≡ slots_in board.now.board place }
    requires sure { IsFalse board.now.doubtful }
    requires rests { IsTrue H.tells → RestsOn board.now.board (H.disk host.old) }
    ensures slot { IsTrue H.tells → (b : Boards.Board) → Holds b (H.disk host.old) → IfOk result (λ slot. slot ≡ slot_packed (numbered (slots_in b place) number)) }
    // Whatever the host tells, it is this board's but for the bytes of the body.
    ensures outline { IfOk result (λ slot. slot_outline slot ≡ slot_outline (slot_packed (numbered (slots_in board.now.board place) number))) }
    ensures lines { IfOk result HasBody }
    ensures unchanged { IsTrue H.tells → Unchanged (H.disk host.old) (H.disk host.new) }
    ensures rests { IsTrue H.tells → RestsOn board.now.board (H.disk host.new) }
    ensures undamaged { IsTrue H.tells → (damage : Damage) → ¬ (result ≡ Err (ReadError.Damaged damage)) }
    ensures cause { HasReadCause (H.disk_faults host.old) (H.disk_faults host.new) result }
    ensures voice { H.voice_faults host.new ≡ H.voice_faults host.old }
{
    if is_deleted(base, number) {
        return Ok(Slot::Gone);
    }
    match board.message(alloc, host, place, number)? {
        Some(message) => Ok(Slot::Held(message)),
        None => Ok(Slot::Gone),
    }
}

/// The slots of the conference in a place after a pack, with the bodies that stand in the host's files, one after the
/// other. The board isn't doubtful, the place is there, and the host's files are those of a board with this outline.
/// Nothing of the host changes.
///
/// `DiskFault` comes only where the host's count of disk faults rose, and `Damaged` never from a host that tells its
/// files. `OutOfMemory` comes where there is no memory for the messages that stay.
pub(crate) fn slots_of<H: Host>(
    alloc: Global,
    board: &Board,
    host: &mut H,
    place: u8,
) -> Result<Slots, ReadError>
    requires place { place < length board.now.board.conferences }
    requires sure { IsFalse board.now.doubtful }
    requires rests { IsTrue H.tells → RestsOn board.now.board (H.disk host.old) }
    ensures slots { IsTrue H.tells → (b : Boards.Board) → Holds b (H.disk host.old) → IfOk result (λ slots. slots ≡ slots_packed (slots_in b place)) }
    ensures outline { IfOk result (λ slots. map slot_outline slots ≡ map slot_outline (slots_packed (slots_in board.now.board place))) }
    ensures lines { IfOk result (All HasBody) }
    ensures unchanged { IsTrue H.tells → Unchanged (H.disk host.old) (H.disk host.new) }
    ensures rests { IsTrue H.tells → RestsOn board.now.board (H.disk host.new) }
    ensures undamaged { IsTrue H.tells → (damage : Damage) → ¬ (result ≡ Err (ReadError.Damaged damage)) }
    ensures cause { HasReadCause (H.disk_faults host.old) (H.disk_faults host.new) result }
    ensures voice { H.voice_faults host.new ≡ H.voice_faults host.old }
{
    let mut slots = Slots::new(alloc);
    let Some(base) = board.stored().base_at(place) else {
        return Ok(slots);
    };
    for before in 0..base.slot_count() {
        slots.add(fetched(alloc, board, host, base, place, before + 1)?)?;
    }
    Ok(slots)
}
