//! The line of the command by which a conference is packed.
ghost use Rattle.cmd_pack.specs.Pack.{packed_line};

use door_outside::{Host, VoiceFault};
use entry_runs::{Wording, say_all};
use itoa::Buffer;

/// The line of a packed conference.
#[derive(Clone, Copy)]
pub struct PackedLine {
    /// The number of the conference.
    pub conference: u32,
}

impl Wording<u32> for PackedLine {
    ghost text = { λ words. packed_line words.conference };

    fn say<H: Host>(&self, value: &u32, host: &mut H) -> Result<(), VoiceFault> {
        let mut number = Buffer::new();
        let mut many = Buffer::new();
        let conference = number.format(self.conference).as_bytes();
        let count = many.format(*value).as_bytes();
        say_all(host, &[b"packed ", conference, b": ", count, b"\n"])
    }
}
