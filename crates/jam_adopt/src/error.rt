ghost use Rattle.std.specs.Prelude.{◌≡◌};
ghost use Rattle.jam_adopt.specs.declared.error.ForeignError.TheVariants.{OutOfMemory};

use std::alloc::AllocError;
use thiserror::Error;

/// Why a base couldn't be read: the first of these that holds.
#[derive(Debug, Clone, Copy, PartialEq, Eq, Error)]
pub enum ForeignError {
    /// .JHR has fewer bytes than its base header.
    #[error("short: .JHR has fewer than the 1024 bytes of a base header")]
    Short,
    /// .JHR doesn't begin with the signature of JAM.
    #[error("signature: .JHR doesn't begin with that of JAM")]
    Signature,
    /// There is no memory for the messages, or for what they are looked up in.
    #[error("out of memory")]
    OutOfMemory,
}

impl From<AllocError> for ForeignError {
    ghost from_gives = { λ _ e. e ≡ OutOfMemory };

    fn from(_error: AllocError) -> ForeignError {
        ForeignError::OutOfMemory
    }
}
