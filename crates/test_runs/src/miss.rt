use door_outside::FileId;
use mail_cli::Status;
use std::alloc::{AllocError, Global};
use thiserror::Error;

/// Where a run differs from its example.
#[derive(Debug, Drop, Error)]
pub enum Miss {
    /// A command said something else.
    #[error("`{line}` said {said:?} in place of {wanted:?}")]
    Said {
        line: String,
        said: String,
        wanted: String,
    },
    /// A command ended otherwise.
    #[error("`{line}` ended as {ended:?} in place of {wanted:?}")]
    Ended {
        line: String,
        ended: Status,
        wanted: Status,
    },
    /// Memory was wanting in a command.
    #[error("`{line}` wanted memory")]
    Starved {
        line: String,
    },
    /// A file of the shelf isn't there.
    #[error("there is no file {name}")]
    NoFile {
        name: String,
    },
    /// A file of the shelf has another byte in a place, or ends there, or goes on.
    #[error("the file {name} has {found:?} in place of {wanted:?} at byte {place}")]
    File {
        name: String,
        place: usize,
        found: Option<u8>,
        wanted: Option<u8>,
    },
    /// A file of the shelf has more or fewer bytes than were wanted.
    #[error("the file {name} has {length} bytes in place of {wanted}")]
    Length {
        name: String,
        length: usize,
        wanted: usize,
    },
    /// A data file of the board has other bytes from a place on, or ends elsewhere.
    #[error("the data file {file:?} differs from byte {place} on")]
    Data {
        file: FileId,
        place: usize,
    },
    /// A command whose calls fail from one on says something, or leaves another board than the one before it or after
    /// it.
    #[error("`{line}` with calls that fail from {call} on: {why}")]
    Stopped {
        line: String,
        call: u32,
        why: &'static str,
    },
    /// A text is no transcript.
    #[error("{text:?} is no transcript")]
    NoTranscript {
        text: String,
    },
    /// The example itself can't be set up or carried through.
    #[error("{0}")]
    Broken(#[from] &'static str),
    /// The example has no memory.
    #[error(transparent)]
    Memory(#[from(alloc)] AllocError),
}

impl Miss {
    /// A command said something else.
    pub fn said(alloc: Global, line: &str, said: &[u8], wanted: &str) -> Result<Miss, AllocError> {
        Ok(Miss::Said {
            line: String::from_str(alloc, line)?,
            said: String::from_utf8_lossy(alloc, said)?,
            wanted: String::from_str(alloc, wanted)?,
        })
    }

    /// A command ended otherwise.
    pub(crate) fn ended(
        alloc: Global,
        line: &str,
        ended: Status,
        wanted: Status,
    ) -> Result<Miss, AllocError> {
        let line = String::from_str(alloc, line)?;
        Ok(Miss::Ended {
            line,
            ended,
            wanted,
        })
    }

    /// Memory was wanting in a command.
    pub(crate) fn starved(alloc: Global, line: &str) -> Result<Miss, AllocError> {
        let line = String::from_str(alloc, line)?;
        Ok(Miss::Starved { line })
    }

    /// A command whose calls fail from one on does what it may not.
    pub fn stopped(
        alloc: Global,
        line: &str,
        call: u32,
        why: &'static str,
    ) -> Result<Miss, AllocError> {
        let line = String::from_str(alloc, line)?;
        Ok(Miss::Stopped { line, call, why })
    }

    /// A text is no transcript.
    pub(crate) fn no_transcript(alloc: Global, text: &str) -> Result<Miss, AllocError> {
        let text = String::from_str(alloc, text)?;
        Ok(Miss::NoTranscript { text })
    }

    /// A file of the shelf isn't there.
    pub(crate) fn no_file(alloc: Global, name: &str) -> Result<Miss, AllocError> {
        let name = String::from_str(alloc, name)?;
        Ok(Miss::NoFile { name })
    }

    /// A file of the shelf differs from what was wanted in a place, the first one.
    pub(crate) fn file(
        alloc: Global,
        name: &str,
        place: usize,
        file: &[u8],
        wanted: &[u8],
    ) -> Result<Miss, AllocError> {
        let name = String::from_str(alloc, name)?;
        Ok(Miss::File {
            name,
            place,
            found: file.get(place).copied(),
            wanted: wanted.get(place).copied(),
        })
    }

    /// A file of the shelf has more or fewer bytes than were wanted.
    pub(crate) fn length(
        alloc: Global,
        name: &str,
        length: usize,
        wanted: usize,
    ) -> Result<Miss, AllocError> {
        let name = String::from_str(alloc, name)?;
        Ok(Miss::Length {
            name,
            length,
            wanted,
        })
    }
}
