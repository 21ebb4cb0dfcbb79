use byte_lists::{Bytes, Duplicate, List};
use std::alloc::{AllocError, Global};

/// The messages of a file, in its order.
pub type Sheets = List<Sheet>;

/// One message of a sheet. A header that isn't there is empty, none or false.
#[derive(Debug, Drop)]
pub struct Sheet {
    /// The sender, 1 to 36 bytes.
    pub from: Bytes,
    /// The receiver, 1 to 36 bytes.
    pub to: Bytes,
    /// The subject, 0 to 72 bytes.
    pub subject: Bytes,
    /// When it was written, as its header line says, in Unix seconds, or None.
    pub date: Option<u32>,
    /// The message's own id, 1 to 80 bytes, or empty.
    pub msgid: Bytes,
    /// The id of the message that it replies to, 1 to 80 bytes, or empty.
    pub reply: Bytes,
    /// Whether the message is private.
    pub private: bool,
    /// The text, each line with a carriage return behind it, at most 16,384 bytes.
    pub body: Bytes,
}

impl Duplicate for Sheet {
    fn duplicate(&self, alloc: Global) -> Result<Sheet, AllocError> {
        Ok(Sheet {
            from: self.from.copy(alloc)?,
            to: self.to.copy(alloc)?,
            subject: self.subject.copy(alloc)?,
            date: self.date,
            msgid: self.msgid.copy(alloc)?,
            reply: self.reply.copy(alloc)?,
            private: self.private,
            body: self.body.copy(alloc)?,
        })
    }
}
