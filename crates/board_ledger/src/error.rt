ghost use Rattle.std.specs.Prelude.{◌≡◌};
ghost use Rattle.board_ledger.specs.declared.error.LedgerError.TheVariants.{OutOfMemory};

use jam_records::Damage;
use std::alloc::AllocError;
use thiserror::Error;

/// Why bytes couldn't be read as a ledger.
#[derive(Debug, Clone, Copy, PartialEq, Eq, Error)]
pub enum LedgerError {
    /// They are the text of no ledger. This is the first rule that they break, in file 0.
    #[error("damaged: {0}")]
    Damaged(Damage),
    /// There is no memory for the ledger.
    #[error("out of memory")]
    OutOfMemory,
}

impl From<AllocError> for LedgerError {
    ghost from_gives = { λ _ e. e ≡ OutOfMemory };

    fn from(_error: AllocError) -> LedgerError {
        LedgerError::OutOfMemory
    }
}
