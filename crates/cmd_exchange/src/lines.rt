//! The replies of the commands by which a caller's mail is exchanged.
ghost use Rattle.cmd_exchange.specs.Ack.{acknowledged_line};
ghost use Rattle.cmd_exchange.specs.Export.{packet_line};
ghost use Rattle.cmd_exchange.specs.Upload.{uploaded_text};

use crate::saying::say_uploaded;
use door_export::Exported;
use door_outside::{Host, VoiceFault};
use door_upload::Uploaded;
use entry_runs::{Wording, say_all};
use itoa::Buffer;

/// The line of an acknowledged packet.
#[derive(Clone, Copy)]
pub struct AcknowledgedLine {
    /// Its number.
    pub packet: u32,
}

impl Wording<()> for AcknowledgedLine {
    ghost text = { λ words _. acknowledged_line words.packet };

    fn say<H: Host>(&self, _value: &(), host: &mut H) -> Result<(), VoiceFault> {
        let mut buffer = Buffer::new();
        let packet = buffer.format(self.packet).as_bytes();
        say_all(host, &[b"acknowledged ", packet, b"\n"])
    }
}

/// The line of an exported packet.
#[derive(Clone, Copy)]
pub struct PacketLine;

impl Wording<Exported> for PacketLine {
    ghost text = { λ _. packet_line };

    fn say<H: Host>(&self, value: &Exported, host: &mut H) -> Result<(), VoiceFault> {
        let mut number = Buffer::new();
        let mut many = Buffer::new();
        let packet = number.format(value.packet).as_bytes();
        let count = many.format(value.count).as_bytes();
        say_all(host, &[b"packet ", packet, b": ", count, b" messages\n"])
    }
}

/// What became of a reply packet: a line for each message, in their order, and then how many were posted and refused; or
/// how many were, when it was sent before.
#[derive(Clone, Copy)]
pub struct UploadedText;

impl Wording<Uploaded> for UploadedText {
    ghost text = { λ _. uploaded_text };

    fn say<H: Host>(&self, value: &Uploaded, host: &mut H) -> Result<(), VoiceFault> {
        say_uploaded(host, value)
    }
}
