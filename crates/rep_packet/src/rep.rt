ghost use Rattle.std.specs.Prelude.{◌≡◌, ◌++◌, [], ◌∷◌, OnOk, OnErr};

use crate::size::{field_size, message_size};
use byte_lists::Bytes;
use qwk_blocks::{QwkMessage, QwkMessages};
use std::alloc::AllocError;

/// A reply packet: the board that it is for, and the messages to it.
#[derive(Debug, Drop)]
pub struct Rep {
    /// The board id, 1 to 8 bytes, the last of which is no space and no NUL.
    pub bbsid: Bytes,
    /// The messages, in order. The number of each is that of the conference that it goes to.
    pub messages: QwkMessages,
}

impl Rep {
    ghost use Rattle.std.specs.Prelude.{◌≡◌, ◌-◌, ◌^◌, length, min};
    ghost use Rattle.rep_packet.specs.Written.{rep_text};

    /// How many bytes the written form takes, or 18,446,744,073,709,551,615 where it takes more.
    pub fn size(&self) -> u64
        ensures { result ≡ min (length (rep_text self.now)) (2 ^ 64 - 1) }
    {
        let mut size = field_size(self.bbsid.as_slice(), 128);
        for message in self.messages.as_slice() {
            size = size.saturating_add(message_size(message));
        }
        size
    }
}

/// Adds a message at the end. Where there is no memory for it, the packet is unchanged and the message
/// dropped. For callers of the library; the program doesn't call it.
pub fn add_reply(rep: &mut Rep, message: QwkMessage) -> Result<(), AllocError>
    ensures ok { OnOk result (rep.new ≡ record rep.old { messages = rep.old.messages ++ message ∷ [] }) }
    ensures err { OnErr result (rep.new ≡ rep.old) }
{
    rep.messages.add(message)
}
