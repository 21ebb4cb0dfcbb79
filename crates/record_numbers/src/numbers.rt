ghost use Rattle.std.specs.Prelude.{◌≡◌, ◌+◌, ◌≤◌, length};
ghost use Rattle.record_numbers.specs.Numbers.{u16_at as u16_of, u32_at as u32_of};

use byteorder::{ByteOrder, LittleEndian};

/// The number, 0 to 65,535, in the two bytes at a place. Places count from 0, and both bytes must be there.
#[tactic(auto, unfolding(crate::specs::Numbers::u16_at))]
pub fn u16_at(bytes: &[u8], place: usize) -> u16
    requires { place + 2 ≤ length bytes.now }
    ensures { result ≡ u16_of place bytes.now }
{
    LittleEndian::read_u16(&bytes[place..])
}

/// The number, 0 to 4,294,967,295, in the four bytes at a place. Places count from 0, and all four bytes
/// must be there.
#[tactic(auto, unfolding(crate::specs::Numbers::u32_at))]
pub fn u32_at(bytes: &[u8], place: usize) -> u32
    requires { place + 4 ≤ length bytes.now }
    ensures { result ≡ u32_of place bytes.now }
{
    LittleEndian::read_u32(&bytes[place..])
}
