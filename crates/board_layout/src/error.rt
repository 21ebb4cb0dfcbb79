ghost use Rattle.std.specs.Prelude.{◌≡◌};
ghost use Rattle.board_layout.specs.Rules.{of_base, of_ledger};
ghost use Rattle.board_layout.specs.declared.error.ReadError.TheVariants.{Damaged as IsDamaged, DiskFault as DiskFails, OutOfMemory};

use board_ledger::LedgerError;
use door_outside::DiskFault;
use jam_base::BaseError;
use jam_records::Damage;
use std::alloc::AllocError;
use thiserror::Error;

/// Why files of a board couldn't be read.
#[derive(Debug, Clone, Copy, PartialEq, Eq, Error)]
pub enum ReadError {
    /// The data files are the layout of no board. This is the first rule that they break.
    #[error("damaged: {0}")]
    Damaged(Damage),
    /// A file call of the host failed. The host's count of disk faults says how often.
    #[error("disk fault")]
    DiskFault,
    /// There is no memory for what is read.
    #[error("out of memory")]
    OutOfMemory,
}

impl From<AllocError> for ReadError {
    ghost from_gives = { λ _ e. e ≡ OutOfMemory };

    fn from(_error: AllocError) -> ReadError {
        ReadError::OutOfMemory
    }
}

impl From<DiskFault> for ReadError {
    ghost from_gives = { λ _ e. e ≡ DiskFails };

    fn from(_fault: DiskFault) -> ReadError {
        ReadError::DiskFault
    }
}

impl From<Damage> for ReadError {
    ghost from_gives = { λ d e. e ≡ IsDamaged d };

    fn from(damage: Damage) -> ReadError {
        ReadError::Damaged(damage)
    }
}

impl From<LedgerError> for ReadError {
    ghost from_gives = { λ l e. e ≡ of_ledger l };

    fn from(error: LedgerError) -> ReadError {
        match error {
            LedgerError::Damaged(damage) => ReadError::Damaged(damage),
            LedgerError::OutOfMemory => ReadError::OutOfMemory,
        }
    }
}

impl From<BaseError> for ReadError {
    ghost from_gives = { λ b e. e ≡ of_base b };

    fn from(error: BaseError) -> ReadError {
        match error {
            BaseError::Damaged(damage) => ReadError::Damaged(damage),
            BaseError::OutOfMemory => ReadError::OutOfMemory,
        }
    }
}
