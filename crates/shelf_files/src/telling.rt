//! Saying what a command over the shelf answers.
ghost use Rattle.std.specs.Prelude.{◌≡◌, ◌≢◌, ℕ, IfOk, IsTrue};
ghost use Rattle.entry_runs.specs.Promise.{FaultCounts, counts, ended, HasCauses};
ghost use Rattle.entry_runs.specs.Saying.{Spoken};
ghost use Rattle.shelf_files.specs.Halts.{served};

use crate::halt::Halt;
use door_outside::Host;
use entry_runs::{Class, Stop, Wording};

/// Says what a command over the shelf answers, in these words, or its refusal, and answers how the entry went, or why the
/// run stops. It takes no memory.
pub fn say_served<H: Host, Value: Drop, W: Wording<Value>>(
    words: &W,
    reply: Result<Value, Halt>,
    host: &mut H,
) -> Result<Class, Stop>
    ensures spoken { IsTrue H.tells → Spoken H.disk (served (W.text words.now) reply) host.old host.new result }
    ensures causes { (before : FaultCounts) (shelf : ℕ) → HasCauses before (counts (H.disk_faults host.old) (H.voice_faults host.old) shelf) (ended (served (W.text words.now) reply)) → HasCauses before (counts (H.disk_faults host.new) (H.voice_faults host.new) shelf) (ended result) }
    ensures disk { H.disk_faults host.new ≡ H.disk_faults host.old }
    ensures usage { IfOk result (λ class. class ≢ Class.Usage) }
    ensures undamaged { IfOk result (λ class. class ≢ Class.Damaged) }
{
    match reply {
        Ok(value) => Class::Done.once_said(words.say(&value, host)),
        Err(Halt::Refused(refusal)) => Class::Refused.once_said(refusal.say(host)),
        Err(Halt::ShelfFault) => Err(Stop::ShelfFault),
        Err(Halt::OutOfMemory) => Err(Stop::OutOfMemory),
    }
}
