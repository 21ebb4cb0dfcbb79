ghost use Rattle.std.specs.Prelude.{◌≡◌, ◌≢◌, ◌↔◌, ◌<◌, length};
ghost use Rattle.jam_records.specs.IndexRecords.{index_text, IndexStands};

use crate::error::RecordError;
use byteorder::{ByteOrder, LittleEndian};
use record_numbers::u32_at;

/// A record of .JDX: 8 bytes for each message number. Both fields are FFFFFFFFh where no message has it.
#[derive(Debug, Clone, Copy, PartialEq, Eq)]
pub struct IndexRecord {
    /// UserCRC: the checksum of the recipient's name.
    pub to_crc: u32,
    /// HdrOffset: where the header begins in .JHR, in bytes.
    pub offset: u32,
}

/// The record at the front of the bytes. `Short` comes exactly where there are fewer than 8. For callers of the library; the
/// program doesn't call it.
pub fn read_index(bytes: &[u8]) -> Result<IndexRecord, RecordError>
    ensures ok { (index : IndexRecord) → (result ≡ Ok index) ↔ IndexStands bytes.now index }
    ensures short { (result ≡ Err RecordError.Short) ↔ (length bytes.now < 8) }
    ensures others { (result ≢ Err RecordError.Signature) × (result ≢ Err RecordError.Revision) }
{
    if bytes.len() < 8 {
        return Err(RecordError::Short);
    }
    Ok(IndexRecord {
        to_crc: u32_at(bytes, 0),
        offset: u32_at(bytes, 4),
    })
}

/// The bytes of the record.
#[tactic(auto, unfolding(crate::specs::IndexRecords::index_text))]
pub fn write_index(value: &IndexRecord) -> [u8; 8]
    ensures { result ≡ index_text value.now }
{
    let mut bytes = [0; 8];
    LittleEndian::write_u32_into(&[value.to_crc, value.offset], &mut bytes);
    bytes
}
