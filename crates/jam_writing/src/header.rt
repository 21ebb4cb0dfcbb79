ghost use Rattle.std.specs.Prelude.{◌≡◌, ◌++◌, ◌<◌, ◌^◌, length, OnOk};
ghost use Rattle.jam_records.specs.Subfields.{subfields_text};
ghost use Rattle.jam_layout.specs.Fields.{subfields_of};
ghost use Rattle.jam_layout.specs.Headers.{entry_text, header_size, marks_in, message_header};

use crate::message_subfields::add_subfields;
use jam_layout::{Link, Marks, header_size as size_of_header, name_crc};
use jam_records::{Bytes, Kind, Message, MessageHeader, write_message_header};
use std::alloc::AllocError;

/// PasswordCRC without a password.
const NO_PASSWORD: u32 = 0xFFFF_FFFF;

/// How many bytes a header has before its subfields (JAM message base proposal, revision 1, .JHR).
const FIXED_SIZE: u32 = 76;

/// The marks of a message.
fn marks(message: &Message) -> Marks
    ensures { result ≡ marks_in message.now }
{
    Marks {
        local: message.local,
        private: message.private,
        seen: message.seen,
        deleted: message.deleted,
    }
}

/// The header of a message, whose subfields and whose body have these lengths.
#[tactic(auto, unfolding(jam_layout::specs::Headers::message_header))]
fn header(
    kind: Kind,
    number: u32,
    offset: u32,
    text_len: u32,
    link: Link,
    message: &Message,
    subfield_len: u32,
) -> MessageHeader
    requires { subfield_len ≡ length (subfields_text (subfields_of message.now)) }
    ensures { result ≡ message_header kind offset (record { number = number; text_len = text_len; link = link; message = message.now }) }
{
    MessageHeader {
        subfield_len,
        times_read: 0,
        msgid_crc: name_crc(message.msgid.as_slice()),
        reply_crc: name_crc(message.replyid.as_slice()),
        reply_to: link.to,
        reply1st: link.first,
        reply_next: link.next,
        written: message.written,
        received: message.received,
        processed: message.processed,
        number,
        attribute: marks(message).attribute(kind),
        attribute2: 0,
        offset,
        text_len,
        password_crc: NO_PASSWORD,
        cost: 0,
    }
}

/// Adds the header of a message with its subfields (JAM message base proposal, revision 1, .JHR). Its number is from 1,
/// its body begins at the offset in .JDT and has so many bytes, whatever body is at hand. The header has fewer than 2^31
/// bytes.
///
/// The error comes where there is no memory. The bytes may then have a part of it more.
#[tactic(auto, unfolding(jam_layout::specs::Headers::header_size))]
pub fn add_header(
    jhr: &mut Bytes,
    kind: Kind,
    number: u32,
    offset: u32,
    text_len: u32,
    link: Link,
    message: &Message,
) -> Result<(), AllocError>
    requires { header_size message.now < 2 ^ 31 }
    ensures { OnOk result (jhr.new ≡ jhr.old ++ entry_text kind offset (record { number = number; text_len = text_len; link = link; message = message.now })) }
{
    let len = size_of_header(message) - FIXED_SIZE;
    let header = header(kind, number, offset, text_len, link, message, len);
    jhr.add(&write_message_header(&header))?;
    add_subfields(jhr, message)
}
