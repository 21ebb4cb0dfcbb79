ghost use Rattle.std.specs.Prelude.{◌≡◌, ◌+◌, ◌≤◌, ◌<◌, ◌^◌, List, length, IfOk, Some};
ghost use Rattle.jam_records.specs.declared.subfield.Subfield.{Subfield};
ghost use Rattle.jam_adopt.specs.Bodies.{ended_text};
ghost use Rattle.jam_adopt.specs.Fields.{fields_of};
ghost use Rattle.jam_adopt.specs.Foreign.{is_no_header as names_none, verdict_of as verdict_of_record};
ghost use Rattle.jam_adopt.specs.Leaps.{AreAllLeaps};
ghost use Rattle.jam_adopt.specs.Texts.{AreTables};
ghost use Rattle.jam_adopt.specs.Verdicts.{field_bytes, adopted_message as message_in, verdict_behind as verdict_behind_of, verdict_at as verdict_at_of};

use crate::bodies::{body_of, is_long};
use crate::found::{ForeignRule, FoundVerdict};
use crate::headers::{field_places, header_at, wrong_fields};
use crate::leaps::Leaps;
use crate::parts::{ids_of, names_of};
use crate::tables::Tables;
use jam_layout::Marks;
use jam_records::{IndexRecord, Message, MessageHeader};
use std::alloc::{AllocError, Global};

/// Both fields of a record that names no header.
const NONE: u32 = 0xFFFF_FFFF;

/// The message of the header at an offset whose text without line feeds is this.
#[tactic(auto, unfolding(crate::specs::Verdicts::adopted_message))]
fn message_of(
    alloc: Global,
    jhr: &[u8],
    leaps: &Leaps,
    offset: u32,
    header: &MessageHeader,
    text: &[u8],
) -> Result<Message, AllocError>
    requires short { length jhr.now < 2 ^ 31 }
    requires leaps { AreAllLeaps jhr.now leaps.now }
    requires within { offset + 76 + header.now.subfield_len ≤ length jhr.now }
    ensures { IfOk result (λ message. (fields : List Subfield) → fields_of (field_bytes jhr.now offset header.now) ≡ Some fields → message ≡ message_in header.now fields (ended_text text.now)) }
{
    let (from, to) = field_places(offset, header);
    let names = names_of(alloc, jhr, leaps, from, to)?;
    let ids = ids_of(alloc, jhr, leaps, from, to)?;
    let body = body_of(alloc, text)?;
    let marks = Marks::of(header.attribute);
    Ok(Message {
        from: names.from,
        to: names.to,
        subject: names.subject,
        msgid: ids.msgid,
        replyid: ids.replyid,
        origin: ids.origin,
        destination: ids.destination,
        body,
        written: header.written,
        received: header.received,
        processed: header.processed,
        local: marks.local,
        private: marks.private,
        seen: marks.seen,
        deleted: false,
    })
}

/// The verdict on a header at an offset that isn't deleted.
fn verdict_behind(
    alloc: Global,
    jhr: &[u8],
    jdt: &[u8],
    tables: &Tables,
    offset: u32,
    header: &MessageHeader,
) -> Result<FoundVerdict, AllocError>
    requires short { length jhr.now < 2 ^ 31 }
    requires tables { AreTables jhr.now jdt.now tables.now }
    ensures { IfOk result (λ verdict. verdict ≡ verdict_behind_of jhr.now jdt.now offset header.now) }
{
    if wrong_fields(jhr, &tables.leaps, offset, header) {
        return Ok(FoundVerdict::Refused(ForeignRule::Subfields));
    }
    let Some(text) = tables.texts.text(jdt, header.offset, header.text_len) else {
        return Ok(FoundVerdict::Refused(ForeignRule::Text));
    };
    if is_long(text) {
        return Ok(FoundVerdict::Refused(ForeignRule::Length));
    }
    let message = message_of(alloc, jhr, &tables.leaps, offset, header, text)?;
    Ok(FoundVerdict::Taken(message))
}

/// The verdict on the header at an offset, or None where it is passed over.
#[tactic(auto, unfolding(crate::specs::Verdicts::verdict_at))]
fn verdict_at(
    alloc: Global,
    jhr: &[u8],
    jdt: &[u8],
    tables: &Tables,
    offset: u32,
) -> Result<Option<FoundVerdict>, AllocError>
    requires short { length jhr.now < 2 ^ 31 }
    requires tables { AreTables jhr.now jdt.now tables.now }
    ensures { IfOk result (λ verdict. verdict ≡ verdict_at_of jhr.now jdt.now offset) }
{
    let Some(header) = header_at(jhr, offset) else {
        return Ok(Some(FoundVerdict::Refused(ForeignRule::Header)));
    };
    if Marks::of(header.attribute).deleted {
        return Ok(None);
    }
    let verdict = verdict_behind(alloc, jhr, jdt, tables, offset, &header)?;
    Ok(Some(verdict))
}

/// Whether a record names no header.
fn is_no_header(pair: IndexRecord) -> bool
    ensures { result ≡ names_none pair }
{
    pair.to_crc == NONE && pair.offset == NONE
}

/// The verdict on the header that a record names, or None where the record is passed over.
#[tactic(auto, unfolding(crate::specs::Foreign::verdict_of))]
pub(crate) fn verdict_of(
    alloc: Global,
    jhr: &[u8],
    jdt: &[u8],
    tables: &Tables,
    pair: IndexRecord,
) -> Result<Option<FoundVerdict>, AllocError>
    requires short { length jhr.now < 2 ^ 31 }
    requires tables { AreTables jhr.now jdt.now tables.now }
    ensures { IfOk result (λ verdict. verdict ≡ verdict_of_record jhr.now jdt.now pair) }
{
    if is_no_header(pair) {
        return Ok(None);
    }
    verdict_at(alloc, jhr, jdt, tables, pair.offset)
}
