ghost use Rattle.std.specs.Prelude.{◌≡◌};
ghost use Rattle.jam_layout.specs.declared.error.BaseError.TheVariants.{OutOfMemory};

use jam_records::Damage;
use std::alloc::AllocError;
use thiserror::Error;

/// Why four files couldn't be read as a conference.
#[derive(Debug, Clone, Copy, PartialEq, Eq, Error)]
pub enum BaseError {
    /// They are the layout of no conference of that shape. This is the first rule that they break.
    #[error("damaged: {0}")]
    Damaged(Damage),
    /// There is no memory for the conference.
    #[error("out of memory")]
    OutOfMemory,
}

impl From<AllocError> for BaseError {
    ghost from_gives = { λ _ e. e ≡ OutOfMemory };

    fn from(_error: AllocError) -> BaseError {
        BaseError::OutOfMemory
    }
}
