ghost use Rattle.std.specs.Prelude.{◌≡◌, ℕ, List, IsTrue};
ghost use Rattle.door_outside.specs.Cause.{HasCause};
ghost use Rattle.entry_runs.specs.Saying.{Voiced};

use crate::saying::say_all;
use byte_lists::Bytes;
use door_outside::{Host, VoiceFault};

/// How it is said what a command answers that was carried out.
pub trait Wording<Value> {
    // The text of what is answered.
    ghost text: { Self → Value → List ℕ };

    /// Says the text of what is answered. It takes no memory.
    fn say<H: Host>(&self, value: &Value, host: &mut H) -> Result<(), VoiceFault>
        ensures voiced { IsTrue H.tells → Voiced (text self.now value.now) (H.disk host.old) (H.disk host.new) result }
        ensures cause { HasCause (H.voice_faults host.old) (H.voice_faults host.new) result }
        ensures disk { H.disk_faults host.new ≡ H.disk_faults host.old };
}

/// An answer that is a text is said as it is.
#[derive(Clone, Copy)]
pub struct AsText;

impl Wording<Bytes> for AsText {
    ghost text = { λ _ text. text };

    fn say<H: Host>(&self, value: &Bytes, host: &mut H) -> Result<(), VoiceFault> {
        say_all(host, &[value.as_slice()])
    }
}
