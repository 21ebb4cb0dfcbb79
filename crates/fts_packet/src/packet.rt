use byte_lists::{Bytes, Duplicate, Lines, List};
use std::alloc::{AllocError, Global};

/// A packed message, by FTS-0001. Of its header the attribute and the cost aren't kept.
#[derive(Debug, Drop)]
pub struct FtsMessage {
    /// The address that it comes from, `zone:net/node`, or nothing where a number is above 32,767.
    pub origin: Bytes,
    /// The address that it goes to, written likewise.
    pub destination: Bytes,
    /// When it was written, as `dd Mmm yy  hh:mm:ss` and NUL. It need not read.
    pub date: [u8; 20],
    /// To, at most 35 bytes.
    pub to: Bytes,
    /// From, at most 35 bytes.
    pub from: Bytes,
    /// Subject, at most 71 bytes.
    pub subject: Bytes,
    /// The lines of the text, without their ends. The tag and the kludge lines are among them.
    pub lines: Lines,
}

/// The messages of a packet, in order.
pub type FtsPacket = List<FtsMessage>;

impl Duplicate for FtsMessage {
    fn duplicate(&self, alloc: Global) -> Result<FtsMessage, AllocError> {
        Ok(FtsMessage {
            origin: self.origin.copy(alloc)?,
            destination: self.destination.copy(alloc)?,
            date: self.date,
            to: self.to.copy(alloc)?,
            from: self.from.copy(alloc)?,
            subject: self.subject.copy(alloc)?,
            lines: self.lines.copy(alloc)?,
        })
    }
}
