// The messages of a board, and the msgids that it generates.
ghost use Rattle.std.specs.Prelude.{◌≡◌, ◌<◌, Err, length, option_map, IfOk, IfSome, IsFalse, IsTrue};
ghost use Rattle.board_layout.specs.Board as Boards;
ghost use Rattle.board_layout.specs.Lookups.{message_at};
ghost use Rattle.board_layout.specs.Outlines.{HasBody};
ghost use Rattle.board_layout.specs.Rules.{HasReadCause};
ghost use Rattle.door_outside.specs.Disk.{Unchanged};
ghost use Rattle.jam_layout.specs.Outlines.{message_outline};
ghost use Rattle.jam_records.specs.declared.damage.Damage.{Damage};
ghost use Rattle.jam_records.specs.declared.message.Slot.TheVariants.{Held};
ghost use Rattle.mail_board.specs.Held.{Holds, RestsOn};
ghost use Rattle.post_changes.specs.slot_changes.Msgids.{msgid_in};

use crate::board::Board;
use crate::bodies::fetched;
use board_layout::{ReadError, message_of};
use byte_lists::Bytes;
use door_outside::Host;
use jam_records::Message;
use post_changes::msgid_of;
use std::alloc::{AllocError, Global};

impl Board {
    /// The msgid that is generated for a message number in a place: `CONFERENCE.NUMBER.BBSID`. The place is there. For
    /// callers of the library; the program doesn't call it.
    ///
    /// The error comes where there is no memory.
    pub fn msgid_of(&self, alloc: Global, place: u8, number: u32) -> Result<Bytes, AllocError>
        requires { place < length self.now.board.conferences }
        ensures { IfOk result (λ msgid. msgid ≡ msgid_in place self.now.board number) }
    {
        msgid_of(alloc, &self.stored, place, number)
    }

    /// The message of a number in a place, or None where no slot of that number holds one. Its body is read from the
    /// host. The board isn't doubtful. The host's files are those of a board with this outline, and the message is that
    /// board's. The call says nothing and changes nothing of the host.
    ///
    /// `DiskFault` comes only where the host's count of disk faults rose. `Damaged` comes where the host gives fewer
    /// bytes than the body has, or bytes that are no body. It never comes from a host that tells its files.
    /// `OutOfMemory` comes where there is no memory for the message.
    #[tactic(auto, using(crate::proofs::OneHost::rests_still))]
    pub fn message<H: Host>(
        &self,
        alloc: Global,
        host: &mut H,
        place: u8,
        number: u32,
    ) -> Result<Option<Message>, ReadError>
        requires sure { IsFalse self.now.doubtful }
        requires rests { IsTrue H.tells → RestsOn self.now.board (H.disk host.old) }
        ensures message { IsTrue H.tells → (b : Boards.Board) → Holds b (H.disk host.old) → IfOk result (λ found. found ≡ message_at b place number) }
        // Whatever the host tells, it is this board's but for the bytes of the body.
        ensures outline { IfOk result (λ found. option_map message_outline found ≡ option_map message_outline (message_at self.now.board place number)) }
        // The bytes are a body's.
        ensures lines { IfOk result (λ found. IfSome found (λ message. HasBody (Held message))) }
        ensures unchanged { IsTrue H.tells → Unchanged (H.disk host.old) (H.disk host.new) }
        ensures rests { IsTrue H.tells → RestsOn self.now.board (H.disk host.new) }
        ensures undamaged { IsTrue H.tells → (damage : Damage) → ¬ (result ≡ Err (ReadError.Damaged damage)) }
        ensures cause { HasReadCause (H.disk_faults host.old) (H.disk_faults host.new) result }
        ensures voice { H.voice_faults host.new ≡ H.voice_faults host.old }
    {
        let Some(base) = self.stored.bases().get(usize::from(place)) else {
            return Ok(None);
        };
        match message_of(base, number) {
            Some(message) => {
                let found = fetched(alloc, host, base, place, number, message)?;
                Ok(Some(found))
            }
            None => Ok(None),
        }
    }
}
