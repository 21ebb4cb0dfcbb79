//! Why a command stops at drafts.
ghost use Rattle.std.specs.Prelude.{◌≡◌};
ghost use Rattle.cmd_replies.specs.RepFile.{draft_halt};

use offline_writer::DraftError;
use shelf_files::{Halt, Refusal};

/// Why a command stops where messages aren't drafted.
pub(crate) fn halt_of(error: DraftError) -> Halt
    ensures { result ≡ draft_halt error }
{
    match error {
        DraftError::Text(number) => Halt::Refused(Refusal::Text(number)),
        DraftError::OutOfMemory => Halt::OutOfMemory,
    }
}
