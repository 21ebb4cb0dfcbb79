//! The command `ack`.
ghost use Rattle.std.specs.Prelude.{◌≡◌, ◌≢◌, Err, IsTrue};
ghost use Rattle.cmd_board.specs.Causes.{HostHasCauses};
ghost use Rattle.cmd_board.specs.Halts.{halted, told};
ghost use Rattle.cmd_board.specs.Kept.{AreSure, IsKept};
ghost use Rattle.cmd_board.specs.State.{State, Stores};
ghost use Rattle.door_export.specs.declared.acknowledging.AckError.TheVariants.{Doubt};
ghost use Rattle.door_outside.specs.Shelf.{ShelfFiles};
ghost use Rattle.entry_runs.specs.Door.{World};
ghost use Rattle.entry_runs.specs.Entry.{IsAt, Works};
ghost use Rattle.entry_runs.specs.Promise.{ended};
ghost use Rattle.cmd_exchange.specs.Ack.{acknowledged_line, acknowledges};
ghost use Rattle.cmd_exchange.specs.Acknowledging.{ack_halt};

use cmd_board::{BoardHalt, Loaded, find, keep_board, take_board};
use door_export::{AckError, acknowledge};
use door_outside::Host;
use shelf_files::Refusal;
use std::alloc::Global;

/// What an acknowledgement on a board in no doubt answers, or why the command isn't carried out.
fn answered(acknowledged: Result<(), AckError>) -> Result<(), BoardHalt>
    requires { acknowledged ≢ Err Doubt }
    ensures { result ≡ halted ack_halt acknowledged }
{
    match acknowledged {
        Ok(()) => Ok(()),
        Err(AckError::NoUser) => Err(BoardHalt::Refused(Refusal::NoUser)),
        Err(AckError::NoPacket(offer)) => Err(BoardHalt::Refused(Refusal::NoPacket(offer))),
        Err(AckError::DiskFault) => Err(BoardHalt::DiskFault),
        Err(AckError::Doubt) => unreachable!(),
        Err(AckError::OutOfMemory) => Err(BoardHalt::OutOfMemory),
    }
}

/// Acknowledges a packet for the user of a name, ignoring ASCII case. It changes each conference where the packet's
/// offer has a high above his last-read pointer. There the messages to him up to that high are marked read at a moment
/// in Unix seconds, and then the pointer is the high. That offer goes, and the others stay.
///
/// It is refused where there is no board, then where no user has the name, then where no open offer of his has the
/// number of the packet.
pub fn ack<H: Host>(
    alloc: Global,
    host: &mut H,
    kept: &mut Option<Loaded>,
    user: &[u8],
    packet: u32,
    now: u32,
) -> Result<(), BoardHalt>
    requires sure { AreSure kept.old }
    requires kept { IsTrue H.tells → IsKept kept.old (H.disk host.old) }
    ensures works { IsTrue H.tells → (world : World State) (shelf : ShelfFiles) → IsAt Stores world (H.disk host.old) shelf → Works Stores (acknowledges user.now packet now) world (H.disk host.old) (H.disk host.new) shelf (told (λ _. acknowledged_line packet) result) }
    ensures kept { IsTrue H.tells → IsKept kept.new (H.disk host.new) }
    ensures sure { AreSure kept.new }
    ensures causes { HostHasCauses H.disk_faults H.voice_faults host.old host.new (ended (told (λ _. acknowledged_line packet) result)) }
{
    find(alloc, host, kept)?;
    let mut board = take_board(kept)?;
    let acknowledged = acknowledge(alloc, &mut board, host, user, packet, now);
    keep_board(kept, board);
    answered(acknowledged)
}
