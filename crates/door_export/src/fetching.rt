// The messages of a packet, fetched from the host.
ghost use Rattle.std.specs.Prelude.{◌≡◌, ℕ, ◌<◌, ◌^◌, Err, length, All, IfOk, IfSome, IsFalse, IsTrue};
ghost use Rattle.board_layout.specs.Board as Boards;
ghost use Rattle.board_layout.specs.Rules.{HasReadCause};
ghost use Rattle.door_outside.specs.Disk.{Unchanged};
ghost use Rattle.jam_records.specs.declared.damage.Damage.{Damage};
ghost use Rattle.mail_board.specs.Held.{Holds, RestsOn};
ghost use Rattle.offered_packets.specs.Shown.{IsShort, notice, shown as shown_of, shown_all};
ghost use Rattle.qwk_blocks.specs.Written.{spelling, Writable};

use door_outside::Host;
use mail_board::{Board, ReadError};
use offered_packets::{Offered, OfferedMessage, shown};
use qwk_blocks::{QwkMessage, QwkMessages};
use std::alloc::Global;

/// A message as a packet shows it under a logical number, fetched from the host: that of the board whose files these
/// are; or None where no slot of its number holds one.
fn fetched<H: Host>(
    alloc: Global,
    board: &Board,
    host: &mut H,
    message: OfferedMessage,
    logical: u16,
) -> Result<Option<QwkMessage>, ReadError>
    requires sure { IsFalse board.now.doubtful }
    requires rests { IsTrue H.tells → RestsOn board.now.board (H.disk host.old) }
    ensures shown { IsTrue H.tells → (b : Boards.Board) → Holds b (H.disk host.old) → IfOk result (λ found. found ≡ shown_of b message.place message.number logical) }
    ensures short { IfOk result (λ found. IfSome found IsShort) }
    ensures unchanged { IsTrue H.tells → Unchanged (H.disk host.old) (H.disk host.new) }
    ensures rests { IsTrue H.tells → RestsOn board.now.board (H.disk host.new) }
    ensures undamaged { IsTrue H.tells → (damage : Damage) → ¬ (result ≡ Err (ReadError.Damaged damage)) }
    ensures cause { HasReadCause (H.disk_faults host.old) (H.disk_faults host.new) result }
    ensures voice { H.voice_faults host.new ≡ H.voice_faults host.old }
{
    let (place, number) = (message.place, message.number);
    let stored = board.stored();
    match board.message(alloc, host, place, number)? {
        Some(found) => Ok(Some(shown(alloc, stored, place, number, logical, &found)?)),
        None => Ok(None),
    }
}

/// What a packet shows of messages of a board, with logical numbers from 1. Each is fetched from the host and shown at
/// once, so that one body is held beside the packet. The board isn't doubtful, and the host's files are those of a board
/// with this outline, which is shown; nothing of the host changes. The messages can be written, in fewer than 2^31 bytes.
/// There are fewer than 65,536, since a logical number has 16 bits.
///
/// `DiskFault` comes only where the host's count of disk faults rose, and `Damaged` never from a host that tells its
/// files. `OutOfMemory` comes where there is no memory for the packet.
pub(crate) fn packet_of<H: Host>(
    alloc: Global,
    board: &Board,
    host: &mut H,
    offered: &Offered,
) -> Result<QwkMessages, ReadError>
    requires sure { IsFalse board.now.doubtful }
    requires rests { IsTrue H.tells → RestsOn board.now.board (H.disk host.old) }
    requires few { length offered.now < 2 ^ 16 }
    ensures shown { IsTrue H.tells → (b : Boards.Board) → Holds b (H.disk host.old) → IfOk result (λ packet. packet ≡ shown_all b offered.now) }
    ensures writable { IfOk result (All Writable) }
    ensures short { (number : ℕ) → number < 2 ^ 32 → IfOk result (λ packet. length (spelling (notice number) packet) < 2 ^ 31) }
    ensures unchanged { IsTrue H.tells → Unchanged (H.disk host.old) (H.disk host.new) }
    ensures undamaged { IsTrue H.tells → (damage : Damage) → ¬ (result ≡ Err (ReadError.Damaged damage)) }
    ensures cause { HasReadCause (H.disk_faults host.old) (H.disk_faults host.new) result }
    ensures voice { H.voice_faults host.new ≡ H.voice_faults host.old }
{
    let mut packet = QwkMessages::new(alloc);
    for (i, message) in offered.as_slice().iter().enumerate() {
        if let Some(shown) = fetched(alloc, board, host, *message, i as u16 + 1)? {
            packet.add(shown)?;
        }
    }
    Ok(packet)
}
