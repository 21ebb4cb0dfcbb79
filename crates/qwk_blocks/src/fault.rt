ghost use Rattle.std.specs.Prelude.{◌≡◌};
ghost use Rattle.qwk_blocks.specs.declared.fault.QwkError.TheVariants.{Fault, OutOfMemory};
ghost use Rattle.qwk_blocks.specs.declared.fault.QwkFault.TheVariants.{BadBlocks};

use std::alloc::AllocError;
use thiserror::Error;

/// What is wrong with the bytes of MESSAGES.DAT, and at which byte from 0, below 2^31.
#[derive(Clone, Copy, Debug, PartialEq, Eq, Error)]
pub enum QwkFault {
    /// The notice, a header block or the text blocks that the header counts aren't all there. The place
    /// is 0 for the notice, and else where the header begins or should begin.
    #[error("the file ends inside what begins at byte {at}")]
    Truncated { at: u32 },
    /// The header block that begins here has a count of blocks that is no number or is 0.
    #[error("the header at byte {at} has no count of blocks")]
    BadBlocks { at: u32 },
}

/// A header block with a count of blocks that is no number or is 0, which a reader of blocks came upon.
#[derive(Clone, Copy, Debug, PartialEq, Eq, Error)]
#[error("the header at byte {at} has no count of blocks")]
pub struct BlocksFault {
    /// The byte, from 0, at which the header begins.
    pub at: u32,
}

/// Why there are no messages.
#[derive(Clone, Copy, Debug, PartialEq, Eq, Error)]
pub enum QwkError {
    /// The bytes break the layout, and this is their first fault.
    #[error(transparent)]
    Fault(QwkFault),
    /// There was no memory for the messages.
    #[error("out of memory")]
    OutOfMemory,
}

impl From<AllocError> for QwkError {
    ghost from_gives = { λ _ e. e ≡ OutOfMemory };

    fn from(_error: AllocError) -> QwkError {
        QwkError::OutOfMemory
    }
}

impl From<BlocksFault> for QwkError {
    ghost from_gives = { λ fault e. e ≡ Fault (BadBlocks fault.at) };

    fn from(fault: BlocksFault) -> QwkError {
        QwkError::Fault(QwkFault::BadBlocks { at: fault.at })
    }
}

impl From<QwkFault> for QwkError {
    ghost from_gives = { λ fault e. e ≡ Fault fault };

    fn from(fault: QwkFault) -> QwkError {
        QwkError::Fault(fault)
    }
}
