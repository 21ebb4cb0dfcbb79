ghost use Rattle.std.specs.Prelude.{◌≡◌, ◌≤◌, ◌+◌, ◌-◌, ℕ, length, MatchOption, IfOk};
ghost use Rattle.qwk_blocks.specs.Header.{number_in, HasText, HasNumber, BlockCountReads, HeaderReads};

use crate::message::Header;
use byteorder::{ByteOrder, LittleEndian};
use std::alloc::{AllocError, Global};
use text_fields::{Blank, Bytes, number_of, trimmed_end};

/// The bytes of a block.
pub const BLOCK: usize = 128;

/// The number of a number field, whose place counts from 1.
fn number_at(block: &[u8], place: usize, width: usize) -> Option<u32>
    requires from { 1 ≤ place }
    requires upto { place + width ≤ 1 + length block.now }
    requires narrow { width ≤ 9 }
    ensures { HasNumber place width block.now result }
{
    let from = place - 1;
    match number_of(&block[from..from + width], Blank::SpacesAndNuls, width) {
        Some(number) => Some(number as u32),
        None => None,
    }
}

/// The text of a text field, whose place counts from 1.
fn text_at(alloc: Global, block: &[u8], place: usize, width: usize) -> Result<Bytes, AllocError>
    requires from { 1 ≤ place }
    requires upto { place + width ≤ 1 + length block.now }
    ensures { IfOk result (λ text. HasText place width block.now text) }
{
    let from = place - 1;
    Bytes::from_slice(
        alloc,
        trimmed_end(&block[from..from + width], Blank::SpacesAndNuls),
    )
}

/// The number in two bytes, whose place counts from 1.
fn word_at(block: &[u8], place: usize) -> u16
    requires from { 1 ≤ place }
    requires upto { place + 1 ≤ length block.now }
    ensures { result ≡ number_in place block.now }
{
    LittleEndian::read_u16(&block[place - 1..])
}

/// How many blocks the message has with its header, or None where the field has no number above 0.
pub fn count_of(block: &[u8]) -> Option<u32>
    requires { 128 ≤ length block.now }
    ensures { MatchOption result ((n : ℕ) → ¬ BlockCountReads block.now n) (λ n. BlockCountReads block.now n) }
{
    match number_at(block, 117, 6) {
        Some(count) if count > 0 => Some(count),
        _ => None,
    }
}

/// The header of a block.
pub fn header_of(alloc: Global, block: &[u8]) -> Result<Header, AllocError>
    requires { length block.now ≡ 128 }
    ensures { IfOk result (λ header. (count : ℕ) → BlockCountReads block.now count → HeaderReads block.now header count) }
{
    let mut date = [0u8; 8];
    date.copy_from_slice(&block[8..16]);
    let mut time = [0u8; 5];
    time.copy_from_slice(&block[16..21]);
    Ok(Header {
        status: block[0],
        number: number_at(block, 2, 7),
        date,
        time,
        to: text_at(alloc, block, 22, 25)?,
        from: text_at(alloc, block, 47, 25)?,
        subject: text_at(alloc, block, 72, 25)?,
        password: text_at(alloc, block, 97, 12)?,
        reference: number_at(block, 109, 8),
        activity: block[122],
        conference: word_at(block, 124),
        logical: word_at(block, 126),
        tag: block[127],
    })
}
