//! The line of a scan.
ghost use Rattle.cmd_packets.specs.Scan.{count_line};

use door_outside::{Host, VoiceFault};
use entry_runs::{Wording, say_all};
use itoa::Buffer;

/// The line that says how many messages a packet has.
#[derive(Clone, Copy)]
pub struct CountLine;

impl Wording<u32> for CountLine {
    ghost text = { λ _. count_line };

    fn say<H: Host>(&self, value: &u32, host: &mut H) -> Result<(), VoiceFault> {
        let mut buffer = Buffer::new();
        let count = buffer.format(*value).as_bytes();
        say_all(host, &[count, b" messages\n"])
    }
}
