ghost use Rattle.std.specs.Prelude.{◌≡◌};
ghost use Rattle.jam_records.specs.declared.error.SubfieldError.TheVariants.{OutOfMemory};

use std::alloc::AllocError;
use thiserror::Error;

/// Why no record stands at the front of the bytes: the first of these that holds.
#[derive(Debug, Clone, Copy, PartialEq, Eq, Error)]
pub enum RecordError {
    /// There are fewer bytes than the record has.
    #[error("the record is cut short")]
    Short,
    /// The bytes don't begin with the signature of JAM.
    #[error("the signature is not that of JAM")]
    Signature,
    /// The revision isn't 1.
    #[error("the revision is not 1")]
    Revision,
}

/// Why subfields couldn't be read.
#[derive(Debug, Clone, Copy, PartialEq, Eq, Error)]
pub enum SubfieldError {
    /// A subfield passes the end. This is the place, in bytes from 0, where the first such begins.
    #[error("the subfield at {0} passes the end")]
    SubfieldEnd(u32),
    /// There is no memory for the values.
    #[error("out of memory")]
    OutOfMemory,
}

impl From<AllocError> for SubfieldError {
    ghost from_gives = { λ _ e. e ≡ OutOfMemory };

    fn from(_error: AllocError) -> SubfieldError {
        SubfieldError::OutOfMemory
    }
}
