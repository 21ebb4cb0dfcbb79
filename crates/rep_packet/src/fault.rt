ghost use Rattle.std.specs.Prelude.{◌≡◌};
ghost use Rattle.rep_packet.specs.Answer.{error_of_packet};
ghost use Rattle.rep_packet.specs.declared.fault.RepError.TheVariants.{OutOfMemory};

use qwk_blocks::{QwkError, QwkFault};
use std::alloc::AllocError;
use thiserror::Error;

/// Why the bytes of a reply packet aren't read.
#[derive(Clone, Copy, Debug, PartialEq, Eq, Error)]
pub enum RepError {
    /// The bytes break the layout of blocks, and this is their first fault.
    #[error(transparent)]
    Fault(QwkFault),
    /// The first block is there, and its first 8 bytes are spaces and NULs alone.
    #[error("the first block has no board id")]
    NoBoardId,
    /// There was no memory.
    #[error("out of memory")]
    OutOfMemory,
}

impl From<AllocError> for RepError {
    ghost from_gives = { λ _ e. e ≡ OutOfMemory };

    fn from(_error: AllocError) -> RepError {
        RepError::OutOfMemory
    }
}

impl From<QwkError> for RepError {
    ghost from_gives = { λ error e. e ≡ error_of_packet error };

    fn from(error: QwkError) -> RepError {
        match error {
            QwkError::Fault(fault) => RepError::Fault(fault),
            QwkError::OutOfMemory => RepError::OutOfMemory,
        }
    }
}
