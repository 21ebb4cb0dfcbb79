ghost use Rattle.std.specs.Prelude.{◌≡◌, ◌≤◌, ◌<◌, ◌+◌, ◌*◌, ◌^◌, ◌++◌, ◌∷◌, [], length, IfOk, OnOk, MatchOption};
ghost use Rattle.record_numbers.specs.Numbers.{u16_text, u32_text};
ghost use Rattle.open_offers.specs.Texts.{sized_text, text_at as text_of, text_end as end_of, u16s_at as u16s_of, u32s_at as u32s_of, u64_at as u64_of, u64_text};

use byteorder::{ByteOrder, LittleEndian};
use record_numbers::{Bytes, List, u16_at, u32_at};
use std::alloc::{AllocError, Global};

/// Where the text at a place ends, or None where it passes the end of the bytes.
#[tactic(auto, unfolding(crate::specs::Texts::text_end))]
pub fn text_end(bytes: &[u8], place: usize) -> Option<usize>
    requires { place ≤ length bytes.now }
    ensures { MatchOption result (length bytes.now < end_of place bytes.now) (λ end. (end ≡ end_of place bytes.now) × (end ≤ length bytes.now)) }
{
    if bytes.len() - place < 2 {
        return None;
    }
    let end = place + 2 + usize::from(u16_at(bytes, place));
    if bytes.len() < end {
        return None;
    }
    Some(end)
}

/// The text at a place, which ends within the bytes.
#[tactic(auto, unfolding(crate::specs::Texts::text_end, crate::specs::Texts::text_at))]
pub fn text_at(bytes: &[u8], place: usize) -> &[u8]
    requires { end_of place bytes.now ≤ length bytes.now }
    ensures { result.now ≡ text_of place bytes.now }
{
    let size = usize::from(u16_at(bytes, place));
    &bytes[place + 2..][..size]
}

/// So many numbers of two bytes from a place on.
#[tactic(auto, using(crate::proofs::TextLaws::u16s_more))]
pub fn u16s_at(
    alloc: Global,
    bytes: &[u8],
    place: usize,
    count: usize,
) -> Result<List<u16>, AllocError>
    requires { place + 2 * count ≤ length bytes.now }
    ensures { IfOk result (λ numbers. numbers ≡ u16s_of place count bytes.now) }
{
    let mut numbers = List::new(alloc);
    for i in 0..count {
        numbers.add(u16_at(bytes, place + 2 * i))?;
    }
    Ok(numbers)
}

/// So many numbers of four bytes from a place on.
#[tactic(auto, using(crate::proofs::TextLaws::u32s_more))]
pub(crate) fn u32s_at(
    alloc: Global,
    bytes: &[u8],
    place: usize,
    count: usize,
) -> Result<List<u32>, AllocError>
    requires { place + 4 * count ≤ length bytes.now }
    ensures numbers { IfOk result (λ numbers. numbers ≡ u32s_of place count bytes.now) }
    ensures count { IfOk result (λ numbers. length numbers ≡ count) }
{
    let mut numbers = List::new(alloc);
    for i in 0..count {
        numbers.add(u32_at(bytes, place + 4 * i))?;
    }
    Ok(numbers)
}

/// The number in the eight bytes at a place.
#[tactic(auto, unfolding(crate::specs::Texts::u64_at))]
pub(crate) fn u64_at(bytes: &[u8], place: usize) -> u64
    requires { place + 8 ≤ length bytes.now }
    ensures { result ≡ u64_of place bytes.now }
{
    LittleEndian::read_u64(&bytes[place..])
}

/// Adds a byte.
pub fn add_byte(out: &mut Bytes, byte: u8) -> Result<(), AllocError>
    ensures { OnOk result (out.new ≡ out.old ++ byte ∷ []) }
{
    out.add(&[byte])
}

/// Adds the two bytes of a number.
pub fn add_u16(out: &mut Bytes, n: u16) -> Result<(), AllocError>
    ensures { OnOk result (out.new ≡ out.old ++ u16_text n) }
{
    let mut bytes = [0; 2];
    LittleEndian::write_u16(&mut bytes, n);
    out.add(&bytes)
}

/// Adds the four bytes of a number.
pub fn add_u32(out: &mut Bytes, n: u32) -> Result<(), AllocError>
    ensures { OnOk result (out.new ≡ out.old ++ u32_text n) }
{
    let mut bytes = [0; 4];
    LittleEndian::write_u32(&mut bytes, n);
    out.add(&bytes)
}

/// Adds the eight bytes of a number.
pub fn add_u64(out: &mut Bytes, n: u64) -> Result<(), AllocError>
    ensures { OnOk result (out.new ≡ out.old ++ u64_text n) }
{
    let mut bytes = [0; 8];
    LittleEndian::write_u64(&mut bytes, n);
    out.add(&bytes)
}

/// Adds a text with its length.
pub fn add_text(out: &mut Bytes, text: &[u8]) -> Result<(), AllocError>
    requires { length text.now < 2 ^ 16 }
    ensures { OnOk result (out.new ≡ out.old ++ sized_text text.now) }
{
    add_u16(out, text.len() as u16)?;
    out.add(text)
}
