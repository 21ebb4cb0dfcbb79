//! The lines of the commands that write a reply packet.
ghost use Rattle.cmd_replies.specs.Compose.{composed_line};
ghost use Rattle.cmd_replies.specs.Reply.{reply_line};

use crate::putting::Added;
use door_outside::{Host, ShelfName, VoiceFault};
use entry_runs::{Wording, say_all};
use itoa::Buffer;

/// The line of a reply.
#[derive(Clone, Copy)]
pub struct RepliedLine<'a> {
    /// The place of the message that it answers, from 1.
    pub place: u32,
    /// The name of the reply packet.
    pub rep: &'a ShelfName,
}

impl Wording<Added> for RepliedLine<'_> {
    ghost text = { λ words. reply_line words.place words.rep.now };

    fn say<H: Host>(&self, value: &Added, host: &mut H) -> Result<(), VoiceFault> {
        let mut first = Buffer::new();
        let mut last = Buffer::new();
        let place = first.format(self.place).as_bytes();
        let total = last.format(value.total).as_bytes();
        let rep = self.rep.as_slice();
        say_all(
            host,
            &[b"replied to ", place, b", ", total, b" in ", rep, b"\n"],
        )
    }
}

/// The line of messages that were composed.
#[derive(Clone, Copy)]
pub struct ComposedLine<'a> {
    /// The name of the reply packet.
    pub rep: &'a ShelfName,
}

impl Wording<Added> for ComposedLine<'_> {
    ghost text = { λ words. composed_line words.rep.now };

    fn say<H: Host>(&self, value: &Added, host: &mut H) -> Result<(), VoiceFault> {
        let mut first = Buffer::new();
        let mut last = Buffer::new();
        let messages = first.format(value.messages).as_bytes();
        let total = last.format(value.total).as_bytes();
        let rep = self.rep.as_slice();
        say_all(
            host,
            &[b"composed ", messages, b", ", total, b" in ", rep, b"\n"],
        )
    }
}
