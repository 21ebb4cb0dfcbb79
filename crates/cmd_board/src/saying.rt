//! The lines of the commands that make a board and a user.
ghost use Rattle.cmd_board.specs.Enroll.{enrolled_line};
ghost use Rattle.cmd_board.specs.Init.{made_line};

use crate::enrollment::Enrolled;
use door_outside::{Host, VoiceFault};
use entry_runs::{Wording, say_all};
use itoa::Buffer;

/// The line of a new board.
#[derive(Clone, Copy)]
pub struct MadeLine;

impl Wording<u8> for MadeLine {
    ghost text = { λ _. made_line };

    fn say<H: Host>(&self, value: &u8, host: &mut H) -> Result<(), VoiceFault> {
        let mut buffer = Buffer::new();
        let count = buffer.format(*value).as_bytes();
        say_all(host, &[b"made ", count, b" conferences\n"])
    }
}

/// The line of a new user.
#[derive(Clone, Copy)]
pub struct EnrolledLine;

impl Wording<Enrolled> for EnrolledLine {
    ghost text = { λ _. enrolled_line };

    fn say<H: Host>(&self, value: &Enrolled, host: &mut H) -> Result<(), VoiceFault> {
        let mut buffer = Buffer::new();
        let id = buffer.format(value.id).as_bytes();
        say_all(host, &[b"user ", id, b" ", value.name.as_slice(), b"\n"])
    }
}
