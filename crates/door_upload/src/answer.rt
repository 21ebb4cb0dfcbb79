// What an upload answers.
use board_ledger::Counts;
use jam_records::Damage;
use mail_board::ChangeError;
use packet_verdicts::Outcomes;
use qwk_blocks::QwkFault;
use rep_packet::RepError;
use std::alloc::AllocError;
use thiserror::Error;

/// What became of a reply packet.
#[derive(Debug, Drop)]
pub enum Uploaded {
    /// The user sent it before: so many of its messages were posted then, and so many refused.
    Again(Counts),
    /// What became of each of its messages.
    Judged(Outcomes),
}

/// Why a reply packet wasn't taken in, or perhaps not.
#[derive(Clone, Copy, Debug, PartialEq, Eq, Error)]
pub enum UploadError {
    /// No user has the name.
    #[error("no such user")]
    NoUser,
    /// The packet has this first fault.
    #[error(transparent)]
    Broken(QwkFault),
    /// Its first 8 bytes are spaces and NULs alone.
    #[error("the first block has no board id")]
    NoBoardId,
    /// It is for another board.
    #[error("the packet is for another board")]
    OtherBoard,
    /// There are 100,000 upload records.
    #[error("there are 100000 upload records, and no more are kept")]
    Uploads,
    /// The data files would have so many bytes with the record, more than 34,603,008.
    #[error("the data files would have {0} bytes, more than 34603008")]
    Size(u64),
    /// A file call of the host failed. The files hold the board before the upload or the one after it.
    #[error("disk fault")]
    DiskFault,
    /// An earlier change ended with a disk fault, so nothing was done.
    #[error("the board is in doubt")]
    Doubt,
    /// What the host gave as a message's text can't be one of the board's. This is the rule that it breaks. It never
    /// comes, since an upload fetches no text.
    #[error("damaged: {0}")]
    Damaged(Damage),
    /// There is no memory for the upload. Nothing was done.
    #[error("out of memory")]
    OutOfMemory,
}

impl From<RepError> for UploadError {
    ghost use Rattle.std.specs.Prelude.{◌≡◌};
    ghost use Rattle.door_upload.specs.Uploading.{of_rep};

    ghost from_gives = { λ error e. e ≡ of_rep error };

    fn from(error: RepError) -> UploadError {
        match error {
            RepError::Fault(fault) => UploadError::Broken(fault),
            RepError::NoBoardId => UploadError::NoBoardId,
            RepError::OutOfMemory => UploadError::OutOfMemory,
        }
    }
}

impl From<ChangeError> for UploadError {
    ghost use Rattle.std.specs.Prelude.{◌≡◌};
    ghost use Rattle.door_upload.specs.Uploading.{upload_change_error};

    ghost from_gives = { λ error e. e ≡ upload_change_error error };

    fn from(error: ChangeError) -> UploadError {
        match error {
            ChangeError::DiskFault => UploadError::DiskFault,
            ChangeError::Doubt => UploadError::Doubt,
            ChangeError::OutOfMemory => UploadError::OutOfMemory,
        }
    }
}

impl From<AllocError> for UploadError {
    ghost use Rattle.std.specs.Prelude.{◌≡◌};
    ghost use Rattle.door_upload.specs.declared.answer.UploadError.TheVariants.{OutOfMemory};

    ghost from_gives = { λ _ e. e ≡ OutOfMemory };

    fn from(_error: AllocError) -> UploadError {
        UploadError::OutOfMemory
    }
}
