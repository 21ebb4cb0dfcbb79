// Numbers of four bytes, as they stand in the files.
ghost use Rattle.std.specs.Prelude.{◌≡◌, [], ◌∷◌};
ghost use Rattle.jam_records.specs.record_numbers.Numbers.{u32_text, u32s_text};

use byteorder::{ByteOrder, LittleEndian};

/// The bytes of a number.
pub fn one_number(number: u32) -> [u8; 4]
    ensures { result ≡ u32_text number }
{
    let mut bytes = [0, 0, 0, 0];
    LittleEndian::write_u32(&mut bytes, number);
    bytes
}

/// The bytes of two numbers, one after the other.
pub fn two_numbers(first: u32, second: u32) -> [u8; 8]
    ensures { result ≡ u32s_text (first ∷ second ∷ []) }
{
    let mut bytes = [0, 0, 0, 0, 0, 0, 0, 0];
    LittleEndian::write_u32(&mut bytes, first);
    LittleEndian::write_u32(&mut bytes[4..], second);
    bytes
}

/// The bytes of four numbers, one after the other.
pub fn four_numbers(first: u32, second: u32, third: u32, fourth: u32) -> [u8; 16]
    ensures { result ≡ u32s_text (first ∷ second ∷ third ∷ fourth ∷ []) }
{
    let mut bytes = [0, 0, 0, 0, 0, 0, 0, 0, 0, 0, 0, 0, 0, 0, 0, 0];
    LittleEndian::write_u32(&mut bytes, first);
    LittleEndian::write_u32(&mut bytes[4..], second);
    LittleEndian::write_u32(&mut bytes[8..], third);
    LittleEndian::write_u32(&mut bytes[12..], fourth);
    bytes
}
