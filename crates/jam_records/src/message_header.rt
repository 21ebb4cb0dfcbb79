ghost use Rattle.std.specs.Prelude.{◌≡◌, ◌≢◌, ◌↔◌, ◌<◌, ◌≤◌, length, take};
ghost use Rattle.record_numbers.specs.Numbers.{u16_at as u16_of};
ghost use Rattle.jam_records.specs.Signature.{signature};
ghost use Rattle.jam_records.specs.MessageHeaders.{message_header_at, message_fields, header_text, MessageHeaderStands};

use crate::error::RecordError;
use crate::signature::SIGNATURE;
use byteorder::{ByteOrder, LittleEndian};
use record_numbers::{u16_at, u32_at};

/// The fixed part of a message header, in .JHR: 76 bytes, which the subfields follow.
#[derive(Debug, Clone, Copy, PartialEq, Eq)]
pub struct MessageHeader {
    /// SubfieldLen: the length of the subfields in bytes.
    pub subfield_len: u32,
    /// TimesRead.
    pub times_read: u32,
    /// MSGIDcrc: the checksum of the message id.
    pub msgid_crc: u32,
    /// REPLYcrc: the checksum of the id that is answered.
    pub reply_crc: u32,
    /// ReplyTo: the number of the message that is answered, or 0.
    pub reply_to: u32,
    /// Reply1st: the number of the first answer, or 0.
    pub reply1st: u32,
    /// ReplyNext: the number of the next answer to the same message, or 0.
    pub reply_next: u32,
    /// DateWritten, in Unix seconds.
    pub written: u32,
    /// DateReceived, in Unix seconds, or 0.
    pub received: u32,
    /// DateProcessed, in Unix seconds.
    pub processed: u32,
    /// MessageNumber.
    pub number: u32,
    /// Attribute: a bit for each mark.
    pub attribute: u32,
    /// Attribute2, which revision 1 reserves.
    pub attribute2: u32,
    /// Offset: where the text begins in .JDT, in bytes.
    pub offset: u32,
    /// TxtLen: the length of the text in bytes.
    pub text_len: u32,
    /// PasswordCRC: the checksum of the password, FFFFFFFFh for none.
    pub password_crc: u32,
    /// Cost.
    pub cost: u32,
}

/// The fields at their offsets.
fn fields_at(bytes: &[u8]) -> MessageHeader
    requires { 76 ≤ length bytes.now }
    ensures { result ≡ message_header_at bytes.now }
{
    MessageHeader {
        subfield_len: u32_at(bytes, 8),
        times_read: u32_at(bytes, 12),
        msgid_crc: u32_at(bytes, 16),
        reply_crc: u32_at(bytes, 20),
        reply_to: u32_at(bytes, 24),
        reply1st: u32_at(bytes, 28),
        reply_next: u32_at(bytes, 32),
        written: u32_at(bytes, 36),
        received: u32_at(bytes, 40),
        processed: u32_at(bytes, 44),
        number: u32_at(bytes, 48),
        attribute: u32_at(bytes, 52),
        attribute2: u32_at(bytes, 56),
        offset: u32_at(bytes, 60),
        text_len: u32_at(bytes, 64),
        password_crc: u32_at(bytes, 68),
        cost: u32_at(bytes, 72),
    }
}

/// The fixed part of the header at the front of the bytes. What the two reserved bytes hold is free.
///
/// `Short` comes exactly where there are fewer than 76 bytes, else `Signature` where they don't begin with that of JAM, else
/// `Revision` where that isn't 1.
pub fn read_message_header(bytes: &[u8]) -> Result<MessageHeader, RecordError>
    ensures ok { (header : MessageHeader) → (result ≡ Ok header) ↔ MessageHeaderStands bytes.now header }
    ensures short { (result ≡ Err RecordError.Short) ↔ (length bytes.now < 76) }
    ensures signature { (result ≡ Err RecordError.Signature) ↔ ((76 ≤ length bytes.now) × (take 4 bytes.now ≢ signature)) }
    ensures revision { (result ≡ Err RecordError.Revision) ↔ ((76 ≤ length bytes.now) × (take 4 bytes.now ≡ signature) × (u16_of 4 bytes.now ≢ 1)) }
{
    if bytes.len() < 76 {
        return Err(RecordError::Short);
    }
    if !bytes.starts_with(&SIGNATURE) {
        return Err(RecordError::Signature);
    }
    if u16_at(bytes, 4) != 1 {
        return Err(RecordError::Revision);
    }
    Ok(fields_at(bytes))
}

/// The fields in order.
fn fields_of(value: &MessageHeader) -> [u32; 17]
    ensures { result ≡ message_fields value.now }
{
    [
        value.subfield_len,
        value.times_read,
        value.msgid_crc,
        value.reply_crc,
        value.reply_to,
        value.reply1st,
        value.reply_next,
        value.written,
        value.received,
        value.processed,
        value.number,
        value.attribute,
        value.attribute2,
        value.offset,
        value.text_len,
        value.password_crc,
        value.cost,
    ]
}

/// The bytes of the fixed part, of revision 1. The reserved ones are zeros.
pub fn write_message_header(value: &MessageHeader) -> [u8; 76]
    ensures { result ≡ header_text value.now }
{
    let mut bytes = [0; 76];
    bytes[..4].copy_from_slice(&SIGNATURE);
    LittleEndian::write_u16_into(&[1, 0], &mut bytes[4..8]);
    LittleEndian::write_u32_into(&fields_of(value), &mut bytes[8..]);
    bytes
}
