use jam_records::Damage;
use mail_board::{ChangeError, ReadError};
use thiserror::Error;

/// Why a conference wasn't packed, or perhaps not.
#[derive(Clone, Copy, Debug, PartialEq, Eq, Error)]
pub enum PackError {
    /// A file call of the host failed. The files hold the board before the pack or the one after it.
    #[error("disk fault")]
    DiskFault,
    /// An earlier change ended with a disk fault, so nothing was done.
    #[error("the board is in doubt")]
    Doubt,
    /// What the host gave as a message's text can't be one of the board's. This is the rule that it breaks. Nothing was
    /// done. It never comes from a host that tells its files.
    #[error("damaged: {0}")]
    Damaged(Damage),
    /// There is no memory for the conference. Nothing was done.
    #[error("out of memory")]
    OutOfMemory,
}

impl From<ChangeError> for PackError {
    ghost use Rattle.std.specs.Prelude.{◌≡◌};
    ghost use Rattle.jam_pack.specs.Packing.{pack_change_error};

    ghost from_gives = { λ error e. e ≡ pack_change_error error };

    fn from(error: ChangeError) -> PackError {
        match error {
            ChangeError::DiskFault => PackError::DiskFault,
            ChangeError::Doubt => PackError::Doubt,
            ChangeError::OutOfMemory => PackError::OutOfMemory,
        }
    }
}

impl From<ReadError> for PackError {
    ghost use Rattle.std.specs.Prelude.{◌≡◌};
    ghost use Rattle.jam_pack.specs.Packing.{pack_read_error};

    ghost from_gives = { λ error e. e ≡ pack_read_error error };

    fn from(error: ReadError) -> PackError {
        match error {
            ReadError::Damaged(damage) => PackError::Damaged(damage),
            ReadError::DiskFault => PackError::DiskFault,
            ReadError::OutOfMemory => PackError::OutOfMemory,
        }
    }
}
