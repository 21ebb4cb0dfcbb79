use record_numbers::{Bytes, Duplicate, List};
use std::alloc::{AllocError, Global};

/// A message of a conference, which holds what JAM's message base proposal, revision 1, has in its header, its subfields
/// and its text. The ranges are those of a message that a conference may hold. No byte of a name, an id or the subject is
/// below 20h.
#[derive(Debug, Drop)]
pub struct Message {
    /// The sender's name, 1 to 36 bytes (SENDERNAME).
    pub from: Bytes,
    /// The recipient's name, 1 to 36 bytes (RECEIVERNAME).
    pub to: Bytes,
    /// The subject, 0 to 72 bytes (SUBJECT).
    pub subject: Bytes,
    /// The id of the message, 1 to 80 bytes (MSGID), or nothing in a draft that will get one.
    pub msgid: Bytes,
    /// The id of the message that is answered, 1 to 80 bytes (REPLYID), or nothing.
    pub replyid: Bytes,
    /// The address that it comes from, as `address_text` takes it (OADDRESS), or nothing.
    pub origin: Bytes,
    /// The address that it goes to, likewise (DADDRESS), or nothing.
    pub destination: Bytes,
    /// The lines, each ended by a carriage return (0Dh): 0 to 16,384 bytes. They stand in .JDT.
    pub body: Bytes,
    /// When it was written, in Unix seconds (DateWritten).
    pub written: u32,
    /// When its recipient received it, in Unix seconds (DateReceived), or 0.
    pub received: u32,
    /// When it came into the base, in Unix seconds (DateProcessed).
    pub processed: u32,
    /// Whether it was made on this board (MSG_LOCAL).
    pub local: bool,
    /// Whether only its sender, its recipient and the sysop may see it (MSG_PRIVATE). In a net conference each is private.
    pub private: bool,
    /// Whether its recipient has read it (MSG_READ).
    pub seen: bool,
    /// Whether it was deleted (MSG_DELETED). It keeps its number, and its links count.
    pub deleted: bool,
}

/// Messages in order.
pub type Messages = List<Message>;

/// What a message number stands for.
#[derive(Debug, Drop)]
pub enum Slot {
    /// No message: there never was one, or it was deleted and packed.
    Gone,
    /// A message, deleted or not.
    Held(Message),
}

/// The slots of a conference, at most 9,999. The one at place i, from 0, has the message number i + 1.
pub type Slots = List<Slot>;

/// Where the messages of a conference go.
#[derive(Debug, Clone, Copy, PartialEq, Eq)]
pub enum Kind {
    /// To this board alone (MSG_TYPELOCAL).
    Local,
    /// To many boards (MSG_TYPEECHO).
    Echo,
    /// To one person at an address (MSG_TYPENET).
    Net,
}

impl Duplicate for Message {
    fn duplicate(&self, alloc: Global) -> Result<Message, AllocError> {
        Ok(Message {
            from: self.from.copy(alloc)?,
            to: self.to.copy(alloc)?,
            subject: self.subject.copy(alloc)?,
            msgid: self.msgid.copy(alloc)?,
            replyid: self.replyid.copy(alloc)?,
            origin: self.origin.copy(alloc)?,
            destination: self.destination.copy(alloc)?,
            body: self.body.copy(alloc)?,
            written: self.written,
            received: self.received,
            processed: self.processed,
            local: self.local,
            private: self.private,
            seen: self.seen,
            deleted: self.deleted,
        })
    }
}

impl Duplicate for Slot {
    fn duplicate(&self, alloc: Global) -> Result<Slot, AllocError> {
        match self {
            Slot::Gone => Ok(Slot::Gone),
            Slot::Held(message) => Ok(Slot::Held(message.duplicate(alloc)?)),
        }
    }
}
