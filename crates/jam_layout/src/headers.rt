ghost use Rattle.std.specs.Prelude.{◌≡◌, ◌+◌, ◌≤◌, ◌<◌, ◌^◌, ◌++◌, ◌==◌, not, [], length, unwrap_or, IfOk, IfErr, Some, None};
ghost use Rattle.name_crc.specs.JamCrc.{jam_crc};
ghost use Rattle.jam_records.specs.MessageHeaders.{message_header_at};
ghost use Rattle.damage_rules.specs.Rules.{first_broken, by_rules};
ghost use Rattle.jam_layout.specs.Limits.{slot_limit};
ghost use Rattle.jam_layout.specs.Rules.{BaseGives};
ghost use Rattle.door_outside.specs.File.{jhr_file};
ghost use Rattle.jam_layout.specs.Headers.{wrong_fields as fields_wrong, wrong_number as number_wrong, wrong_text as text_wrong, wrong_crc as crc_wrong, values_of, front_rules, field_rules, length_rules, value_rules, message_of as message_in, entry_of as entry_in, behind, header_at, entries_at};

use crate::conference::SLOT_LIMIT;
use crate::entry::{Front, HeaderEntry};
use crate::error::BaseError;
use crate::fields::{Values, read_values, right_values};
use crate::marks::{Marks, wrong_attribute};
use crate::places::damaged;
use door_outside::FileId;
use jam_records::{
    Bytes, DamageRule, Kind, List, Message, MessageHeader, RecordError, read_message_header, u16_at,
};
use jam_threads::Link;
use name_crc::name_crc;
use std::alloc::Global;

/// The length of the fixed part of a header in bytes.
const HEADER: usize = 76;

/// The password checksum of a message without a password.
const NO_PASSWORD: u32 = 0xFFFF_FFFF;

/// Whether TimesRead, Attribute2, PasswordCRC or Cost isn't the door's.
#[tactic(auto, unfolding(crate::specs::Headers::wrong_fields))]
fn wrong_fields(header: &MessageHeader) -> bool
    ensures { result ≡ fields_wrong header.now }
{
    let counts = header.times_read != 0 || header.attribute2 != 0;
    counts || (header.password_crc != NO_PASSWORD || header.cost != 0)
}

/// Whether the number is 0, above 9,999 or not above the one before.
#[tactic(auto, unfolding(crate::specs::Headers::wrong_number))]
fn wrong_number(front: &Front, header: &MessageHeader) -> bool
    ensures { result ≡ number_wrong front.now header.now }
{
    header.number == 0 || header.number as usize > SLOT_LIMIT || header.number <= front.last
}

/// Whether Offset isn't the sum of the lengths before, or TxtLen is above 16,384.
#[tactic(auto, unfolding(crate::specs::Headers::wrong_text))]
fn wrong_text(front: &Front, header: &MessageHeader) -> bool
    ensures { result ≡ text_wrong front.now header.now }
{
    header.offset != front.offset || header.text_len > 16384
}

/// Whether the checksum of an id isn't the one stated.
fn wrong_id(stated: u32, id: &Option<Bytes>) -> bool
    ensures { result ≡ not (stated == jam_crc (unwrap_or id.now [])) }
{
    match id {
        None => stated != name_crc(&[]),
        Some(id) => stated != name_crc(id.as_slice()),
    }
}

/// Whether MSGIDcrc or REPLYcrc isn't that of the value.
#[tactic(auto, unfolding(crate::specs::Headers::wrong_crc))]
fn wrong_crc(header: &MessageHeader, values: &Values) -> bool
    ensures { result ≡ crc_wrong header.now values.now }
{
    wrong_id(header.msgid_crc, &values.msgid) || wrong_id(header.reply_crc, &values.replyid)
}

/// The fixed part at the front, or the first rule that it breaks up to its revision.
#[tactic(auto, using(crate::proofs::HeaderFrontTests::front_short, crate::proofs::HeaderFrontTests::front_unsigned, crate::proofs::HeaderFrontTests::front_revised, crate::proofs::HeaderFrontTests::front_reserved, crate::proofs::HeaderFrontTests::front_passes))]
fn read_fixed(bytes: &[u8]) -> Result<MessageHeader, DamageRule>
    ensures fields { IfOk result (λ header. header ≡ message_header_at bytes.now) }
    ensures ok { IfOk result (λ _. first_broken (front_rules bytes.now) ≡ None) }
    ensures broken { IfErr result (λ rule. first_broken (front_rules bytes.now) ≡ Some rule) }
    ensures long { IfOk result (λ _. 76 ≤ length bytes.now) }
{
    match read_message_header(bytes) {
        Err(RecordError::Short) => Err(DamageRule::Short),
        Err(RecordError::Signature) => Err(DamageRule::Signature),
        Err(RecordError::Revision) => Err(DamageRule::Revision),
        Ok(header) => {
            if u16_at(bytes, 6) != 0 {
                return Err(DamageRule::Revision);
            }
            Ok(header)
        }
    }
}

/// The first rule that the fields break, behind the revision.
#[tactic(auto, unfolding(crate::specs::Headers::field_rules))]
fn broken_field(kind: Kind, front: &Front, header: &MessageHeader) -> Option<DamageRule>
    ensures { result ≡ first_broken (field_rules kind front.now header.now) }
{
    if wrong_fields(header) {
        return Some(DamageRule::Fields);
    }
    if wrong_number(front, header) {
        return Some(DamageRule::Number);
    }
    if wrong_attribute(kind, header.attribute) {
        return Some(DamageRule::Attribute);
    }
    if wrong_text(front, header) {
        return Some(DamageRule::Text);
    }
    None
}

/// The first rule that the values of the subfields break.
#[tactic(auto, unfolding(crate::specs::Headers::value_rules))]
fn broken_value(header: &MessageHeader, values: &Values) -> Option<DamageRule>
    ensures { result ≡ first_broken (value_rules header.now values.now) }
{
    if values.left != 0 {
        return Some(DamageRule::Subfields);
    }
    if !right_values(values) {
        return Some(DamageRule::Value);
    }
    if wrong_crc(header, values) {
        return Some(DamageRule::Crc);
    }
    None
}

/// The text, or nothing where there is none.
fn text_of(alloc: Global, text: Option<Bytes>) -> Bytes
    ensures { result ≡ unwrap_or text [] }
{
    match text {
        None => Bytes::new(alloc),
        Some(text) => text,
    }
}

/// The message of a header, without its body.
#[tactic(auto, unfolding(crate::specs::Headers::message_of))]
fn message_of(alloc: Global, header: &MessageHeader, values: Values) -> Message
    ensures { result ≡ message_in header.now values }
{
    let marks = Marks::of(header.attribute);
    Message {
        from: text_of(alloc, values.from),
        to: text_of(alloc, values.to),
        subject: text_of(alloc, values.subject),
        msgid: text_of(alloc, values.msgid),
        replyid: text_of(alloc, values.replyid),
        origin: text_of(alloc, values.origin),
        destination: text_of(alloc, values.destination),
        body: Bytes::new(alloc),
        written: header.written,
        received: header.received,
        processed: header.processed,
        local: marks.local,
        private: marks.private,
        seen: marks.seen,
        deleted: marks.deleted,
    }
}

/// The entry of a header.
#[tactic(auto, unfolding(crate::specs::Headers::entry_of))]
fn entry_of(alloc: Global, header: &MessageHeader, values: Values) -> HeaderEntry
    ensures { result ≡ entry_in header.now values }
{
    HeaderEntry {
        number: header.number,
        text_len: header.text_len,
        link: Link {
            to: header.reply_to,
            first: header.reply1st,
            next: header.reply_next,
        },
        message: message_of(alloc, header, values),
    }
}

/// The fixed part of the header at the front.
#[tactic(auto, using(damage_rules::proofs::KeptRules::both_pass))]
fn fixed_of(place: u8, kind: Kind, front: Front, bytes: &[u8]) -> Result<MessageHeader, BaseError>
    requires { place < 64 }
    ensures gives { BaseGives (λ x. x) result (by_rules (jhr_file place) front.item (front_rules bytes.now ++ field_rules kind front (message_header_at bytes.now)) (message_header_at bytes.now)) }
    ensures long { IfOk result (λ _. 76 ≤ length bytes.now) }
{
    match read_fixed(bytes) {
        Err(rule) => Err(damaged(FileId::jhr(place), front.item, rule)),
        Ok(header) => match broken_field(kind, &front, &header) {
            Some(rule) => Err(damaged(FileId::jhr(place), front.item, rule)),
            None => Ok(header),
        },
    }
}

/// The values of the subfields behind a header.
fn values_behind(
    alloc: Global,
    place: u8,
    item: u32,
    header: &MessageHeader,
    bytes: &[u8],
) -> Result<Values, BaseError>
    requires place { place < 64 }
    requires fixed { 76 ≤ length bytes.now }
    ensures gives { BaseGives (λ x. x) result (by_rules (jhr_file place) item (length_rules header.now bytes.now ++ value_rules header.now (values_of header.now bytes.now)) (values_of header.now bytes.now)) }
    ensures long { IfOk result (λ _. 76 + header.now.subfield_len ≤ length bytes.now) }
{
    let end = HEADER + header.subfield_len as usize;
    if bytes.len() < end {
        return Err(damaged(FileId::jhr(place), item, DamageRule::Subfields));
    }
    let values = read_values(alloc, &bytes[HEADER..end])?;
    match broken_value(header, &values) {
        Some(rule) => Err(damaged(FileId::jhr(place), item, rule)),
        None => Ok(values),
    }
}

/// The header at the front of what is left, and its length.
#[tactic(auto, unfolding(crate::specs::Headers::header_at))]
fn header_of(
    alloc: Global,
    place: u8,
    kind: Kind,
    front: Front,
    bytes: &[u8],
) -> Result<(HeaderEntry, usize), BaseError>
    requires { place < 64 }
    ensures gives { BaseGives (λ x. record { value = x.0; size = x.1; next = behind front x.0 }) result (header_at place kind front bytes.now) }
    ensures size { IfOk result (λ x. (76 ≤ x.1) × (x.1 ≤ length bytes.now)) }
    ensures bounds { IfOk result (λ x. (front.last < x.0.number) × (x.0.number ≤ slot_limit) × (x.0.text_len ≤ 16384)) }
{
    let header = fixed_of(place, kind, front, bytes)?;
    let values = values_behind(alloc, place, front.item, &header, bytes)?;
    let size = HEADER + header.subfield_len as usize;
    Ok((entry_of(alloc, &header, values), size))
}

/// The entries of the headers, one after the other.
pub fn entries_of(
    alloc: Global,
    place: u8,
    kind: Kind,
    bytes: &[u8],
) -> Result<List<HeaderEntry>, BaseError>
    requires place { place < 64 }
    requires short { length bytes.now < 2 ^ 31 }
    ensures { BaseGives (λ x. x) result (entries_at place kind bytes.now) }
{
    let mut entries = List::new(alloc);
    let mut front = Front {
        item: 1,
        last: 0,
        offset: 0,
    };
    let mut rest = bytes;
    while !rest.is_empty() {
        let (entry, size) = header_of(alloc, place, kind, front, rest)?;
        rest = &rest[size..];
        front = Front {
            item: front.item + 1,
            last: entry.number,
            offset: front.offset + entry.text_len,
        };
        entries.add(entry)?;
    }
    Ok(entries)
}
