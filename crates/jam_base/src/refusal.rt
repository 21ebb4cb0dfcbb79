ghost use Rattle.std.specs.Prelude.{◌≡◌};

use std::alloc::AllocError;
use thiserror::Error;

/// Why messages weren't appended.
#[derive(Debug, Clone, Copy, PartialEq, Eq, Error)]
pub enum AppendRefusal {
    /// So many slots would stand, more than 9,999.
    #[error("{0} slots would stand, more than 9999")]
    Slots(u64),
    /// There was no memory.
    #[error("out of memory")]
    OutOfMemory,
}

impl From<AllocError> for AppendRefusal {
    ghost use Rattle.jam_base.specs.declared.refusal.AppendRefusal.TheVariants.{OutOfMemory};

    ghost from_gives = { λ _ e. e ≡ OutOfMemory };

    fn from(_error: AllocError) -> AppendRefusal {
        AppendRefusal::OutOfMemory
    }
}

/// Why a message wasn't deleted.
#[derive(Debug, Clone, Copy, PartialEq, Eq, Error)]
pub enum KillRefusal {
    /// No message of that number is without the mark deleted.
    #[error("no message that isn't deleted has this number")]
    NoMessage,
    /// There was no memory.
    #[error("out of memory")]
    OutOfMemory,
}

impl From<AllocError> for KillRefusal {
    ghost use Rattle.jam_base.specs.declared.refusal.KillRefusal.TheVariants.{OutOfMemory};

    ghost from_gives = { λ _ e. e ≡ OutOfMemory };

    fn from(_error: AllocError) -> KillRefusal {
        KillRefusal::OutOfMemory
    }
}
