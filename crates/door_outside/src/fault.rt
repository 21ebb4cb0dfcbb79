use thiserror::Error;

/// A file call of a host failed. The host's count of disk faults says how often.
#[derive(Clone, Copy, Debug, PartialEq, Eq, Error)]
#[error("disk fault")]
pub struct DiskFault;

/// What a host was to say wasn't said whole. The host's count of voice faults says how often.
#[derive(Clone, Copy, Debug, PartialEq, Eq, Error)]
#[error("output fault")]
pub struct VoiceFault;

/// A call of a shelf failed. The shelf's count of faults says how often.
#[derive(Clone, Copy, Debug, PartialEq, Eq, Error)]
#[error("shelf fault")]
pub struct ShelfFault;
