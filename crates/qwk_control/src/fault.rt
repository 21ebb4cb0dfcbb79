ghost use Rattle.std.specs.Prelude.{◌≡◌};
ghost use Rattle.qwk_control.specs.declared.fault.ControlError.TheVariants.{OutOfMemory};

use std::alloc::AllocError;
use thiserror::Error;

/// Why the bytes of CONTROL.DAT aren't read. A line is that of the first fault, and counts from 1.
#[derive(Clone, Copy, Debug, PartialEq, Eq, Error)]
pub enum ControlError {
    /// The line isn't there, though each of the lines 1 to 11 and two lines for each conference must be.
    #[error("line {line} is missing")]
    TooFewLines { line: u32 },
    /// Line 11, or the number line of a conference, is no number of at most 65,535.
    #[error("line {line} is no number")]
    BadNumber { line: u32 },
    /// Line 5 has no board id of 1 to 8 bytes from 21h to 7Eh after its first comma.
    #[error("line 5 has no board id")]
    BadBoardId,
    /// There was no memory.
    #[error("out of memory")]
    OutOfMemory,
}

impl From<AllocError> for ControlError {
    ghost from_gives = { λ _ e. e ≡ OutOfMemory };

    fn from(_error: AllocError) -> ControlError {
        ControlError::OutOfMemory
    }
}
