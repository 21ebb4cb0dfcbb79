ghost use Rattle.std.specs.Prelude.{◌≡◌, ◌⊎◌, ◌≤◌, ◌<◌, ◌+◌, ◌^◌, ℕ, List, length, IfOk, MatchOption};
ghost use Rattle.record_numbers.specs.Numbers.{u32_at as u32_of};
ghost use Rattle.jam_records.specs.Subfields.{subfield_text, IsSubfield, IsCutShort, SubfieldsRead, PassesEnd};

use crate::error::SubfieldError;
use crate::subfield::{Subfield, Subfields};
use record_numbers::{Bytes, u16_at, u32_at};
use std::alloc::{AllocError, Global};

/// The length of the subfield at the front, or None where it passes the end.
fn first_length(bytes: &[u8]) -> Option<usize>
    requires { 0 < length bytes.now }
    ensures { MatchOption result (IsCutShort bytes.now) (λ len. (8 ≤ len) × (len ≤ length bytes.now) × (len ≡ 8 + u32_of 4 bytes.now)) }
{
    if bytes.len() < 8 {
        return None;
    }
    let len = 8 + u32_at(bytes, 4) as usize;
    if bytes.len() < len {
        return None;
    }
    Some(len)
}

/// The subfield of these bytes.
fn subfield_of(alloc: Global, bytes: &[u8]) -> Result<Subfield, AllocError>
    requires whole { 8 ≤ length bytes.now }
    requires len { length bytes.now ≡ 8 + u32_of 4 bytes.now }
    ensures ids { IfOk result IsSubfield }
    ensures text { IfOk result (λ subfield. bytes.now ≡ subfield_text subfield) }
{
    Ok(Subfield {
        lo: u16_at(bytes, 0),
        hi: u16_at(bytes, 2),
        value: Bytes::from_slice(alloc, &bytes[8..])?,
    })
}

/// The subfields of the bytes, with the reasons for both answers.
fn subfields_in(alloc: Global, bytes: &[u8]) -> Result<Subfields, SubfieldError>
    requires { length bytes.now < 2 ^ 31 }
    ensures ok { IfOk result (λ subfields. SubfieldsRead bytes.now subfields) }
    ensures fault { (place : ℕ) → result ≡ Err (SubfieldError.SubfieldEnd place) → PassesEnd bytes.now place }
{
    let mut subfields = Subfields::new(alloc);
    let mut rest = bytes;
    while !rest.is_empty() {
        let Some(len) = first_length(rest) else {
            let place = bytes.len() - rest.len();
            return Err(SubfieldError::SubfieldEnd(place as u32));
        };
        subfields.add(subfield_of(alloc, &rest[..len])?)?;
        rest = &rest[len..];
    }
    Ok(subfields)
}

/// The subfields of the whole slice, which has fewer than 2^31 bytes. For callers of the library; the program doesn't call
/// it.
///
/// `SubfieldEnd` comes where one passes the end of the slice, with the place of the first such, and `OutOfMemory` where there
/// is no memory.
pub fn read_subfields(alloc: Global, bytes: &[u8]) -> Result<Subfields, SubfieldError>
    requires { length bytes.now < 2 ^ 31 }
    ensures ok { IfOk result (λ subfields. SubfieldsRead bytes.now subfields) }
    ensures only_ok { (subfields : List Subfield) → SubfieldsRead bytes.now subfields → (result ≡ Ok subfields) ⊎ (result ≡ Err SubfieldError.OutOfMemory) }
    ensures fault { (place : ℕ) → result ≡ Err (SubfieldError.SubfieldEnd place) → PassesEnd bytes.now place }
    ensures only_fault { (place : ℕ) → PassesEnd bytes.now place → (result ≡ Err (SubfieldError.SubfieldEnd place)) ⊎ (result ≡ Err SubfieldError.OutOfMemory) }
{
    subfields_in(alloc, bytes)
}
