//! The lines of the commands that change the messages of conferences.
ghost use Rattle.cmd_messages.specs.Import.{imported_line};
ghost use Rattle.cmd_messages.specs.Kill.{killed_line};
ghost use Rattle.cmd_messages.specs.Sample.{sampled_line};

use door_outside::{Host, VoiceFault};
use entry_runs::{Wording, say_all};
use itoa::Buffer;

/// The line of imported messages.
#[derive(Clone, Copy)]
pub struct ImportedLine {
    /// The number of their conference.
    pub conference: u32,
}

impl Wording<u32> for ImportedLine {
    ghost text = { λ words. imported_line words.conference };

    fn say<H: Host>(&self, value: &u32, host: &mut H) -> Result<(), VoiceFault> {
        let mut many = Buffer::new();
        let mut number = Buffer::new();
        let count = many.format(*value).as_bytes();
        let conference = number.format(self.conference).as_bytes();
        say_all(host, &[b"imported ", count, b" into ", conference, b"\n"])
    }
}

/// The line of a deleted message.
#[derive(Clone, Copy)]
pub struct KilledLine {
    /// The number of its conference.
    pub conference: u32,
    /// Its number.
    pub number: u32,
}

impl Wording<()> for KilledLine {
    ghost text = { λ words _. killed_line words.conference words.number };

    fn say<H: Host>(&self, _value: &(), host: &mut H) -> Result<(), VoiceFault> {
        let mut place = Buffer::new();
        let mut message = Buffer::new();
        let conference = place.format(self.conference).as_bytes();
        let number = message.format(self.number).as_bytes();
        say_all(host, &[b"killed ", conference, b" ", number, b"\n"])
    }
}

/// The line of made-up messages.
#[derive(Clone, Copy)]
pub struct SampledLine;

impl Wording<u32> for SampledLine {
    ghost text = { λ _. sampled_line };

    fn say<H: Host>(&self, value: &u32, host: &mut H) -> Result<(), VoiceFault> {
        let mut buffer = Buffer::new();
        let count = buffer.format(*value).as_bytes();
        say_all(host, &[b"sampled ", count, b"\n"])
    }
}
