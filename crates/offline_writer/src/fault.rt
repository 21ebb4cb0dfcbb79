ghost use Rattle.std.specs.Prelude.{◌≡◌};
ghost use Rattle.offline_writer.specs.Answer.{reply_error, compose_error};
ghost use Rattle.offline_writer.specs.declared.fault.DraftError.TheVariants as draft;
ghost use Rattle.offline_writer.specs.declared.fault.ReplyError.TheVariants as reply;
ghost use Rattle.offline_writer.specs.declared.fault.ComposeError.TheVariants as compose;

use std::alloc::AllocError;
use thiserror::Error;

/// Why messages aren't drafted.
#[derive(Clone, Copy, Debug, PartialEq, Eq, Error)]
pub enum DraftError {
    /// The message of this number, from 1, is the first that can't be put into QWK. Its To or its Subject has
    /// over 25 bytes and can't go as a line, or its text has a byte E3h, a 0Dh that ends no line, or over
    /// 16,384 bytes.
    #[error("message {0} can't be put into QWK")]
    Text(u32),
    /// There was no memory.
    #[error("out of memory")]
    OutOfMemory,
}

/// Why a message isn't answered.
#[derive(Clone, Copy, Debug, PartialEq, Eq, Error)]
pub enum ReplyError {
    /// The packet has no message in that place.
    #[error("the packet has no message in this place")]
    NoMessage,
    /// The reply, which is number 1, can't be put into QWK.
    #[error("message {0} can't be put into QWK")]
    Text(u32),
    /// There was no memory.
    #[error("out of memory")]
    OutOfMemory,
}

/// Why the messages of a sheet aren't composed.
#[derive(Clone, Copy, Debug, PartialEq, Eq, Error)]
pub enum ComposeError {
    /// The packet has no conference of that number.
    #[error("the packet has no conference of this number")]
    NoConference,
    /// The message of this number, from 1, is the first that can't be put into QWK.
    #[error("message {0} can't be put into QWK")]
    Text(u32),
    /// There was no memory.
    #[error("out of memory")]
    OutOfMemory,
}

impl From<AllocError> for DraftError {
    ghost from_gives = { λ _ e. e ≡ draft.OutOfMemory };

    fn from(_error: AllocError) -> DraftError {
        DraftError::OutOfMemory
    }
}

impl From<AllocError> for ReplyError {
    ghost from_gives = { λ _ e. e ≡ reply.OutOfMemory };

    fn from(_error: AllocError) -> ReplyError {
        ReplyError::OutOfMemory
    }
}

impl From<AllocError> for ComposeError {
    ghost from_gives = { λ _ e. e ≡ compose.OutOfMemory };

    fn from(_error: AllocError) -> ComposeError {
        ComposeError::OutOfMemory
    }
}

impl From<DraftError> for ReplyError {
    ghost from_gives = { λ error e. e ≡ reply_error error };

    fn from(error: DraftError) -> ReplyError {
        match error {
            DraftError::Text(number) => ReplyError::Text(number),
            DraftError::OutOfMemory => ReplyError::OutOfMemory,
        }
    }
}

impl From<DraftError> for ComposeError {
    ghost from_gives = { λ error e. e ≡ compose_error error };

    fn from(error: DraftError) -> ComposeError {
        match error {
            DraftError::Text(number) => ComposeError::Text(number),
            DraftError::OutOfMemory => ComposeError::OutOfMemory,
        }
    }
}
