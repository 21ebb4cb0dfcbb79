use std::alloc::{AllocError, Global};
use text_fields::{Bytes, Duplicate, Lines, List};

/// A message's header, by Lee's QWK Mail Packet File Layout of 1992. The numbers in brackets are the
/// place of the field in its block of 128 bytes, from 1, and its width. A text has at most as many bytes as
/// its field is wide, and no space or NUL at its end.
#[derive(Debug, Drop)]
pub struct Header {
    /// Status [1, 1]: `+` and `*` are private, `~` and a grave accent comments to the sysop; `%`, `^`, `!`, `#` and
    /// `$` ask for a password; a space, `-` and any other byte are public.
    pub status: u8,
    /// Message number [2, 7], 0 to 9,999,999, or None where the field has no number. In a reply packet it is
    /// that of the conference.
    pub number: Option<u32>,
    /// Date [9, 8], as `mm-dd-yy`. It need not read.
    pub date: [u8; 8],
    /// Time [17, 5], as `hh:mm`. It need not read.
    pub time: [u8; 5],
    /// To [22, 25].
    pub to: Bytes,
    /// From [47, 25].
    pub from: Bytes,
    /// Subject [72, 25].
    pub subject: Bytes,
    /// Password [97, 12].
    pub password: Bytes,
    /// Number of the message that this one refers to [109, 8], 0 to 99,999,999, or None where the field has
    /// no number.
    pub reference: Option<u32>,
    /// Activity [123, 1]: E1h is active, E2h is killed.
    pub activity: u8,
    /// Conference number [124, 2], low byte first.
    pub conference: u16,
    /// Logical number in the packet [126, 2], low byte first.
    pub logical: u16,
    /// Tag-line mark [128, 1]: `*` or a space.
    pub tag: u8,
}

/// A message: its header and the lines of its text, without their ends, in at most 999,999 blocks.
#[derive(Debug, Drop)]
pub struct QwkMessage {
    /// The header. The count of blocks isn't kept: it follows from the text.
    pub header: Header,
    /// The lines. None has E3h in it.
    pub lines: Lines,
}

/// A list of messages.
pub type QwkMessages = List<QwkMessage>;

impl Duplicate for Header {
    fn duplicate(&self, alloc: Global) -> Result<Header, AllocError> {
        Ok(Header {
            status: self.status,
            number: self.number,
            date: self.date,
            time: self.time,
            to: self.to.copy(alloc)?,
            from: self.from.copy(alloc)?,
            subject: self.subject.copy(alloc)?,
            password: self.password.copy(alloc)?,
            reference: self.reference,
            activity: self.activity,
            conference: self.conference,
            logical: self.logical,
            tag: self.tag,
        })
    }
}

impl Duplicate for QwkMessage {
    fn duplicate(&self, alloc: Global) -> Result<QwkMessage, AllocError> {
        Ok(QwkMessage {
            header: self.header.duplicate(alloc)?,
            lines: self.lines.copy(alloc)?,
        })
    }
}
