ghost use Rattle.std.specs.Prelude.{◌≡◌, ◌≢◌, ◌↔◌, ◌<◌, length};
ghost use Rattle.jam_records.specs.LastReads.{last_text, LastReadStands};

use crate::error::RecordError;
use byteorder::{ByteOrder, LittleEndian};
use record_numbers::u32_at;

/// A record of .JLR: 16 bytes that say how far a user has read.
#[derive(Debug, Clone, Copy, PartialEq, Eq)]
pub struct LastRead {
    /// UserCRC: the checksum of the user's name.
    pub user_crc: u32,
    /// UserID: the user's number.
    pub user_id: u32,
    /// LastReadMsg: the number of the message that was read last.
    pub last: u32,
    /// HighReadMsg: the highest number of a message that was read.
    pub high: u32,
}

/// The record at the front of the bytes. `Short` comes exactly where there are fewer than 16. For callers of the library; the
/// program doesn't call it.
pub fn read_last(bytes: &[u8]) -> Result<LastRead, RecordError>
    ensures ok { (last : LastRead) → (result ≡ Ok last) ↔ LastReadStands bytes.now last }
    ensures short { (result ≡ Err RecordError.Short) ↔ (length bytes.now < 16) }
    ensures others { (result ≢ Err RecordError.Signature) × (result ≢ Err RecordError.Revision) }
{
    if bytes.len() < 16 {
        return Err(RecordError::Short);
    }
    Ok(LastRead {
        user_crc: u32_at(bytes, 0),
        user_id: u32_at(bytes, 4),
        last: u32_at(bytes, 8),
        high: u32_at(bytes, 12),
    })
}

/// The bytes of the record.
#[tactic(auto, unfolding(crate::specs::LastReads::last_text))]
pub fn write_last(value: &LastRead) -> [u8; 16]
    ensures { result ≡ last_text value.now }
{
    let mut bytes = [0; 16];
    let fields = [value.user_crc, value.user_id, value.last, value.high];
    LittleEndian::write_u32_into(&fields, &mut bytes);
    bytes
}
