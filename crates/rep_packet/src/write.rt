ghost use Rattle.std.specs.Prelude.{◌≡◌, ◌<◌, ◌^◌, length, IfOk};
ghost use Rattle.rep_packet.specs.Written.{IsRep, rep_text};

use crate::rep::Rep;
use byte_lists::Bytes;
use qwk_blocks::write_messages;
use std::alloc::{AllocError, Global};

/// The written form of a reply packet as BBSID.MSG, by Lee's QWK Mail Packet File Layout of 1992. The board
/// id comes first, in a block of its own, padded with spaces. It has 1 to 8 bytes, and no space or NUL at
/// its end. Then each message comes, as in MESSAGES.DAT. Each message can be written, as
/// `QwkMessage::writable` says, and the whole has fewer than 2^31 bytes.
///
/// The error comes where there is no memory.
pub fn write_rep(alloc: Global, rep: &Rep) -> Result<Bytes, AllocError>
    requires rep { IsRep rep.now }
    requires size { length (rep_text rep.now) < 2 ^ 31 }
    ensures { IfOk result (λ bytes. bytes ≡ rep_text rep.now) }
{
    write_messages(alloc, rep.bbsid.as_slice(), &rep.messages)
}
