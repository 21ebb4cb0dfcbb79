use crate::command::Command;
use byte_lists::List;
use door_outside::{Host, VoiceFault};
use entry_runs::say_all;
use itoa::Buffer;
use shelf_files::Refusal;

/// Words that are no command.
#[derive(Clone, Copy, PartialEq, Eq)]
pub enum Usage {
    /// The words of the program.
    Words,
    /// The words of this line of a batch, from 1.
    Line(u32),
}

/// An entry of a run.
#[derive(Drop)]
pub enum Entry {
    /// A command to carry out.
    Run(Command),
    /// Words that are no command.
    Wrong(Usage),
    /// A batch that isn't there, or is too long.
    Refuse(Refusal),
}

/// The entries of a run, in order.
pub type Entries = List<Entry>;

impl Entry {
    ghost use Rattle.std.specs.Prelude.{◌↔◌, IsTrue};
    ghost use Rattle.cmd_entries.specs.Entries.{IsWrong};

    /// Whether it is words that are no command.
    pub fn is_wrong(&self) -> bool
        ensures { IsTrue result ↔ IsWrong self.now }
    {
        match self {
            Entry::Run(_) | Entry::Refuse(_) => false,
            Entry::Wrong(_) => true,
        }
    }
}

impl Usage {
    ghost use Rattle.std.specs.Prelude.{◌≡◌, IsTrue};
    ghost use Rattle.door_outside.specs.Cause.{HasCause};
    ghost use Rattle.entry_runs.specs.Saying.{Voiced};
    ghost use Rattle.cmd_entries.specs.Answers.{usage_line};

    /// Says that the words are no command. It takes no memory.
    pub fn say<H: Host>(self, host: &mut H) -> Result<(), VoiceFault>
        ensures voiced { IsTrue H.tells → Voiced (usage_line self) (H.disk host.old) (H.disk host.new) result }
        ensures cause { HasCause (H.voice_faults host.old) (H.voice_faults host.new) result }
        ensures disk { H.disk_faults host.new ≡ H.disk_faults host.old }
    {
        match self {
            Usage::Words => say_all(host, &[b"usage\n"]),
            Usage::Line(line) => {
                let mut buffer = Buffer::new();
                say_all(
                    host,
                    &[b"usage line ", buffer.format(line).as_bytes(), b"\n"],
                )
            }
        }
    }
}
