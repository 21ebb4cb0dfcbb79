ghost use Rattle.std.specs.Prelude.{◌≡◌};
ghost use Rattle.name_crc.specs.JamCrc.{jam_crc, after_byte};

use crate::table::steps_of;

/// The checksum after one more byte, by one look-up.
fn with_byte(crc: u32, byte: u8) -> u32
    ensures { result ≡ after_byte crc byte }
{
    let mixed = crc ^ u32::from(byte.to_ascii_lowercase());
    (mixed >> 8) ^ steps_of((mixed & 0xFF) as u8)
}

/// The CRC-32/JAMCRC of a text with the letters A to Z lowered, as the JAM message base proposal,
/// revision 1, has it for names and message ids: reflected, polynomial EDB88320h, start FFFFFFFFh,
/// no final inversion. An empty text gives FFFFFFFFh. It takes no memory.
pub fn name_crc(text: &[u8]) -> u32
    ensures { result ≡ jam_crc text.now }
{
    text.iter()
        .fold(u32::MAX, |crc, byte| with_byte(crc, *byte))
}
