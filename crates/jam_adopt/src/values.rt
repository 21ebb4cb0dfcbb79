// What is kept of the value of a subfield. None of these looks at more bytes of it than can be kept.
ghost use Rattle.std.specs.Prelude.{◌≡◌, take, IfOk, nat_le};
ghost use Rattle.std.specs.List.{list_all};
ghost use Rattle.setup_file.specs.Words.{before_spaces};
ghost use Rattle.jam_layout.specs.Address.{is_address};
ghost use Rattle.jam_layout.specs.Fields.{is_text};
ghost use Rattle.jam_adopt.specs.Values.{printable as printable_of, kept_text as text_of, kept_name as name_of, kept_id as id_of, kept_address as address_of};

use byte_lists::Bytes;
use jam_records::address_text;
use std::alloc::{AllocError, Global};
use text_fields::{Blank, trimmed_end};

/// The most bytes of a name.
const NAME: usize = 36;

/// The most bytes of an id.
const ID: usize = 80;

/// The most bytes of an address as it is stored: four numbers of five digits, and three marks.
const ADDRESS: usize = 23;

/// The byte, or `?` for one below 20h.
fn printable(b: u8) -> u8
    ensures { result ≡ printable_of b }
{
    if b < 0x20 { b'?' } else { b }
}

/// The first so many bytes, without the spaces at their end.
fn front(most: usize, value: &[u8]) -> &[u8]
    ensures { result.now ≡ before_spaces (take most value.now) }
{
    trimmed_end(&value[..value.len().min(most)], Blank::Spaces)
}

/// The first so many bytes, without the spaces at their end, each below 20h as `?`.
pub(crate) fn kept_text(alloc: Global, most: usize, value: &[u8]) -> Result<Bytes, AllocError>
    ensures { IfOk result (λ text. text ≡ text_of most value.now) }
{
    let text = front(most, value);
    let bytes = text.iter().map(|b| printable(*b)).collect(alloc)?;
    Ok(Bytes::from_vec(bytes))
}

/// A name, or this one where nothing is left of it.
pub(crate) fn kept_name(alloc: Global, missing: &[u8], value: &[u8]) -> Result<Bytes, AllocError>
    ensures { IfOk result (λ name. name ≡ name_of missing.now value.now) }
{
    let name = kept_text(alloc, NAME, value)?;
    if name.as_slice().is_empty() {
        return Bytes::from_slice(alloc, missing);
    }
    Ok(name)
}

/// Whether no byte is below 20h.
fn is_printable(text: &[u8]) -> bool
    ensures { result ≡ list_all (λ b. nat_le 0x20 b) text.now }
{
    text.iter().all(|b| 0x20 <= *b)
}

/// Whether a value is an id: 1 to 80 bytes, none below 20h.
#[tactic(auto, unfolding(jam_layout::specs::Fields::is_text))]
fn is_id(value: &[u8]) -> bool
    ensures { result ≡ is_text 80 value.now }
{
    1 <= value.len() && value.len() <= ID && is_printable(value)
}

/// The id, or nothing where it is none.
pub(crate) fn kept_id(alloc: Global, value: &[u8]) -> Result<Bytes, AllocError>
    ensures { IfOk result (λ id. id ≡ id_of value.now) }
{
    if !is_id(value) {
        return Ok(Bytes::new(alloc));
    }
    Bytes::from_slice(alloc, value)
}

/// Whether a text is an address as it is stored.
fn is_address_text(text: &[u8]) -> bool
    ensures { result ≡ is_address text.now }
{
    address_text(text)
}

/// The same of a value that may be as long as a file.
#[tactic(auto, using(crate::proofs::ValueTests::long_is_none))]
fn is_stored_address(value: &[u8]) -> bool
    ensures { result ≡ is_address value.now }
{
    value.len() <= ADDRESS && is_address_text(value)
}

/// The address, or nothing where it is none.
pub(crate) fn kept_address(alloc: Global, value: &[u8]) -> Result<Bytes, AllocError>
    ensures { IfOk result (λ address. address ≡ address_of value.now) }
{
    if !is_stored_address(value) {
        return Ok(Bytes::new(alloc));
    }
    Bytes::from_slice(alloc, value)
}
