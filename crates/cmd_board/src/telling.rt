//! Saying what a command that touches the board answers.
ghost use Rattle.std.specs.Prelude.{◌≡◌, ◌≢◌, ℕ, IfOk, IsTrue};
ghost use Rattle.entry_runs.specs.Promise.{FaultCounts, counts, ended, HasCauses};
ghost use Rattle.entry_runs.specs.Saying.{Spoken};
ghost use Rattle.cmd_board.specs.Halts.{told};

use crate::damage::say_damage;
use crate::halt::BoardHalt;
use door_outside::Host;
use entry_runs::{Class, Stop, Wording};

/// Says what a command that touches the board answers, in these words, or its refusal or the damage of the files, and
/// answers how the entry went, or why the run stops. It takes no memory.
pub fn say_told<H: Host, Value: Drop, W: Wording<Value>>(
    words: &W,
    reply: Result<Value, BoardHalt>,
    host: &mut H,
) -> Result<Class, Stop>
    ensures spoken { IsTrue H.tells → Spoken H.disk (told (W.text words.now) reply) host.old host.new result }
    ensures causes { (before : FaultCounts) (shelf : ℕ) → HasCauses before (counts (H.disk_faults host.old) (H.voice_faults host.old) shelf) (ended (told (W.text words.now) reply)) → HasCauses before (counts (H.disk_faults host.new) (H.voice_faults host.new) shelf) (ended result) }
    ensures disk { H.disk_faults host.new ≡ H.disk_faults host.old }
    ensures usage { IfOk result (λ class. class ≢ Class.Usage) }
{
    match reply {
        Ok(value) => Class::Done.once_said(words.say(&value, host)),
        Err(BoardHalt::Refused(refusal)) => Class::Refused.once_said(refusal.say(host)),
        Err(BoardHalt::Damaged(damage)) => Class::Damaged.once_said(say_damage(host, &damage)),
        Err(BoardHalt::DiskFault) => Err(Stop::DiskFault),
        Err(BoardHalt::ShelfFault) => Err(Stop::ShelfFault),
        Err(BoardHalt::OutOfMemory) => Err(Stop::OutOfMemory),
    }
}
