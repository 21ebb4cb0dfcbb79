ghost use Rattle.std.specs.Prelude.{◌≡◌, ◌≢◌, ◌↔◌, ◌<◌, ◌≤◌, length, take};
ghost use Rattle.jam_records.specs.Signature.{signature};
ghost use Rattle.jam_records.specs.BaseHeaders.{base_text, BaseHeaderStands};

use crate::error::RecordError;
use crate::signature::SIGNATURE;
use byteorder::{ByteOrder, LittleEndian};
use record_numbers::u32_at;

/// The header of a message base, at the front of .JHR: 1024 bytes, of which 1000 are reserved.
#[derive(Debug, Clone, Copy, PartialEq, Eq)]
pub struct BaseHeader {
    /// DateCreated: when the base was made, in Unix seconds.
    pub created: u32,
    /// ModCounter: how often the base was changed.
    pub mod_counter: u32,
    /// ActiveMsgs: how many messages aren't deleted.
    pub active: u32,
    /// PasswordCRC: the checksum of the password, FFFFFFFFh for none.
    pub password_crc: u32,
    /// BaseMsgNum: the number of the first message.
    pub base_number: u32,
}

/// The header at the front of the bytes. What the reserved bytes hold is free.
///
/// `Short` comes exactly where there are fewer than 1,024 bytes, else `Signature` where they don't begin with that of JAM.
pub fn read_base_header(bytes: &[u8]) -> Result<BaseHeader, RecordError>
    ensures ok { (header : BaseHeader) → (result ≡ Ok header) ↔ BaseHeaderStands bytes.now header }
    ensures short { (result ≡ Err RecordError.Short) ↔ (length bytes.now < 1024) }
    ensures signature { (result ≡ Err RecordError.Signature) ↔ ((1024 ≤ length bytes.now) × (take 4 bytes.now ≢ signature)) }
    ensures revision { result ≢ Err RecordError.Revision }
{
    if bytes.len() < 1024 {
        return Err(RecordError::Short);
    }
    if !bytes.starts_with(&SIGNATURE) {
        return Err(RecordError::Signature);
    }
    Ok(BaseHeader {
        created: u32_at(bytes, 4),
        mod_counter: u32_at(bytes, 8),
        active: u32_at(bytes, 12),
        password_crc: u32_at(bytes, 16),
        base_number: u32_at(bytes, 20),
    })
}

/// The bytes of the header. The reserved ones are zeros.
pub fn write_base_header(value: &BaseHeader) -> [u8; 1024]
    ensures { result ≡ base_text value.now }
{
    let mut bytes = [0; 1024];
    bytes[..4].copy_from_slice(&SIGNATURE);
    let fields = [
        value.created,
        value.mod_counter,
        value.active,
        value.password_crc,
        value.base_number,
    ];
    LittleEndian::write_u32_into(&fields, &mut bytes[4..24]);
    bytes
}
