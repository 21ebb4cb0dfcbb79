ghost use Rattle.std.specs.Prelude.{◌≡◌, ◌+◌, IfOk, nat_le};
ghost use Rattle.std.specs.List.{list_all};
ghost use Rattle.jam_layout.specs.Address.{is_address};
ghost use Rattle.jam_layout.specs.Fields.{has_field as has_field_of, field_at, values_at, is_text as is_text_of, there, may_miss, right_values as are_right};

use jam_records::{Bytes, address_text, u16_at, u32_at};
use std::alloc::{AllocError, Global};

/// The values of the subfields of a header.
#[derive(Debug, Drop)]
pub struct Values {
    /// OADDRESS, id 0.
    pub origin: Option<Bytes>,
    /// DADDRESS, id 1.
    pub destination: Option<Bytes>,
    /// SENDERNAME, id 2.
    pub from: Option<Bytes>,
    /// RECEIVERNAME, id 3.
    pub to: Option<Bytes>,
    /// MSGID, id 4.
    pub msgid: Option<Bytes>,
    /// REPLYID, id 5.
    pub replyid: Option<Bytes>,
    /// SUBJECT, id 6.
    pub subject: Option<Bytes>,
    /// How many bytes are left behind them.
    pub left: usize,
}

/// Whether a whole subfield of this id is at the front.
fn has_field(id: u16, bytes: &[u8]) -> bool
    ensures { result ≡ has_field_of id bytes.now }
{
    if bytes.len() < 8 || u16_at(bytes, 0) != id || u16_at(bytes, 2) != 0 {
        return false;
    }
    8 + u32_at(bytes, 4) as usize <= bytes.len()
}

/// The value of the subfield of this id, where it is at the front, and what follows.
#[tactic(auto, unfolding(crate::specs::Fields::field_at))]
fn field(alloc: Global, id: u16, bytes: &[u8]) -> Result<(Option<Bytes>, &[u8]), AllocError>
    ensures value { IfOk result (λ found. found.0 ≡ (field_at id bytes.now).0) }
    ensures rest { IfOk result (λ found. found.1.now ≡ (field_at id bytes.now).1) }
{
    if !has_field(id, bytes) {
        return Ok((None, bytes));
    }
    let (front, rest) = bytes.split_at(8 + u32_at(bytes, 4) as usize);
    Ok((Some(Bytes::from_slice(alloc, &front[8..])?), rest))
}

/// The values of the subfields, from the front.
#[tactic(auto, unfolding(crate::specs::Fields::values_at))]
pub fn read_values(alloc: Global, bytes: &[u8]) -> Result<Values, AllocError>
    ensures { IfOk result (λ values. values ≡ values_at bytes.now) }
{
    let (origin, rest) = field(alloc, 0, bytes)?;
    let (destination, rest) = field(alloc, 1, rest)?;
    let (from, rest) = field(alloc, 2, rest)?;
    let (to, rest) = field(alloc, 3, rest)?;
    let (msgid, rest) = field(alloc, 4, rest)?;
    let (replyid, rest) = field(alloc, 5, rest)?;
    let (subject, rest) = field(alloc, 6, rest)?;
    Ok(Values {
        origin,
        destination,
        from,
        to,
        msgid,
        replyid,
        subject,
        left: rest.len(),
    })
}

/// Whether no byte is below 20h.
fn is_printable(text: &[u8]) -> bool
    ensures { result ≡ list_all (λ b. nat_le 0x20 b) text.now }
{
    text.iter().all(|b| 0x20 <= *b)
}

/// Whether a text has 1 to so many bytes, none below 20h.
#[tactic(auto, unfolding(crate::specs::Fields::is_text))]
fn is_text(most: usize, text: &[u8]) -> bool
    ensures { result ≡ is_text_of most text.now }
{
    let printable = is_printable(text);
    1 <= text.len() && text.len() <= most && printable
}

/// Whether a text is an address as it is stored.
fn is_stored_address(text: &[u8]) -> bool
    ensures { result ≡ is_address text.now }
{
    address_text(text)
}

/// Whether a text is there, of 1 to so many bytes, none below 20h.
fn has_text(most: usize, value: &Option<Bytes>) -> bool
    ensures { result ≡ there (is_text_of most) value.now }
{
    match value {
        None => false,
        Some(text) => is_text(most, text.as_slice()),
    }
}

/// Whether there is no text, or one of 1 to so many bytes, none below 20h.
fn may_have_text(most: usize, value: &Option<Bytes>) -> bool
    ensures { result ≡ may_miss (is_text_of most) value.now }
{
    match value {
        None => true,
        Some(text) => is_text(most, text.as_slice()),
    }
}

/// Whether there is no address, or one as it is stored.
fn may_have_address(value: &Option<Bytes>) -> bool
    ensures { result ≡ may_miss is_address value.now }
{
    match value {
        None => true,
        Some(text) => is_stored_address(text.as_slice()),
    }
}

/// Whether the values are those that a message may have.
#[tactic(auto, unfolding(crate::specs::Fields::right_values))]
pub fn right_values(values: &Values) -> bool
    ensures { result ≡ are_right values.now }
{
    let addresses = may_have_address(&values.origin) && may_have_address(&values.destination);
    let names = has_text(36, &values.from) && has_text(36, &values.to);
    let ids = has_text(80, &values.msgid) && may_have_text(80, &values.replyid);
    (addresses && names) && (ids && may_have_text(72, &values.subject))
}
