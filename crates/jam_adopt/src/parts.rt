// The texts of a message by its subfields, in two parts.
ghost use Rattle.std.specs.Prelude.{◌≡◌, ◌≤◌, ◌<◌, ◌^◌, List, length, slice_range, codes, IfOk, Some};
ghost use Rattle.jam_records.specs.declared.subfield.Subfield.{Subfield};
ghost use Rattle.jam_adopt.specs.Fields.{fields_of, value_of_id};
ghost use Rattle.jam_adopt.specs.Leaps.{AreAllLeaps};
ghost use Rattle.jam_adopt.specs.Values.{kept_text as text_of, kept_name as name_of, kept_id as id_of, kept_address as address_of};

use crate::leaps::Leaps;
use crate::values::{kept_address, kept_id, kept_name, kept_text};
use byte_lists::Bytes;
use std::alloc::{AllocError, Global};

/// The most bytes of a subject.
const SUBJECT: usize = 72;

/// Who wrote a message to whom about what.
#[derive(Debug, Drop)]
pub(crate) struct Names {
    pub(crate) from: Bytes,
    pub(crate) to: Bytes,
    pub(crate) subject: Bytes,
}

/// The ids and addresses of a message.
#[derive(Debug, Drop)]
pub(crate) struct Ids {
    pub(crate) msgid: Bytes,
    pub(crate) replyid: Bytes,
    pub(crate) origin: Bytes,
    pub(crate) destination: Bytes,
}

/// The names in the subfields that fill the bytes between two places.
pub(crate) fn names_of(
    alloc: Global,
    jhr: &[u8],
    leaps: &Leaps,
    from: usize,
    to: usize,
) -> Result<Names, AllocError>
    requires short { length jhr.now < 2 ^ 31 }
    requires leaps { AreAllLeaps jhr.now leaps.now }
    requires rising { from ≤ to }
    requires within { to ≤ length jhr.now }
    ensures sender { IfOk result (λ names. (fields : List Subfield) → fields_of (slice_range jhr.now from to) ≡ Some fields → names.from ≡ name_of (codes "Unknown") (value_of_id 2 fields)) }
    ensures recipient { IfOk result (λ names. (fields : List Subfield) → fields_of (slice_range jhr.now from to) ≡ Some fields → names.to ≡ name_of (codes "All") (value_of_id 3 fields)) }
    ensures subject { IfOk result (λ names. (fields : List Subfield) → fields_of (slice_range jhr.now from to) ≡ Some fields → names.subject ≡ text_of 72 (value_of_id 6 fields)) }
{
    let sender = leaps.value(jhr, 2, from, to);
    let recipient = leaps.value(jhr, 3, from, to);
    let subject = leaps.value(jhr, 6, from, to);
    Ok(Names {
        from: kept_name(alloc, b"Unknown", sender)?,
        to: kept_name(alloc, b"All", recipient)?,
        subject: kept_text(alloc, SUBJECT, subject)?,
    })
}

/// The ids and addresses there.
pub(crate) fn ids_of(
    alloc: Global,
    jhr: &[u8],
    leaps: &Leaps,
    from: usize,
    to: usize,
) -> Result<Ids, AllocError>
    requires short { length jhr.now < 2 ^ 31 }
    requires leaps { AreAllLeaps jhr.now leaps.now }
    requires rising { from ≤ to }
    requires within { to ≤ length jhr.now }
    ensures msgid { IfOk result (λ ids. (fields : List Subfield) → fields_of (slice_range jhr.now from to) ≡ Some fields → ids.msgid ≡ id_of (value_of_id 4 fields)) }
    ensures replyid { IfOk result (λ ids. (fields : List Subfield) → fields_of (slice_range jhr.now from to) ≡ Some fields → ids.replyid ≡ id_of (value_of_id 5 fields)) }
    ensures origin { IfOk result (λ ids. (fields : List Subfield) → fields_of (slice_range jhr.now from to) ≡ Some fields → ids.origin ≡ address_of (value_of_id 0 fields)) }
    ensures destination { IfOk result (λ ids. (fields : List Subfield) → fields_of (slice_range jhr.now from to) ≡ Some fields → ids.destination ≡ address_of (value_of_id 1 fields)) }
{
    Ok(Ids {
        msgid: kept_id(alloc, leaps.value(jhr, 4, from, to))?,
        replyid: kept_id(alloc, leaps.value(jhr, 5, from, to))?,
        origin: kept_address(alloc, leaps.value(jhr, 0, from, to))?,
        destination: kept_address(alloc, leaps.value(jhr, 1, from, to))?,
    })
}
