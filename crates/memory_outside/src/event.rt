use byte_lists::Bytes;
use door_outside::FileId;

/// A call that changed what a crash may leave of a host in memory.
#[derive(Debug, Drop)]
pub enum Event {
    /// Bytes were written from a place on.
    Write { file: FileId, at: u32, bytes: Bytes },
    /// A file was cut to a length.
    Shorten { file: FileId, len: u32 },
    /// A file was synced.
    Sync { file: FileId },
    /// A file was given a content, as if it were written and synced.
    Put { file: FileId, bytes: Bytes },
    /// Bytes were said.
    Say { bytes: Bytes },
}
