ghost use Rattle.std.specs.Prelude.{◌≡◌, ◌==◌, ◌+◌, ◌≤◌, ◌<◌, ◌^◌, ◌∷◌, false, length, sum_by, None, IfOk, IfSome};
ghost use Rattle.damage_rules.specs.Rules.{by_rules};
ghost use Rattle.jam_layout.specs.Rules.{BaseGives};
ghost use Rattle.door_outside.specs.File.{jdx_file};
ghost use Rattle.jam_layout.specs.Headers.{header_size as size_of_header};
ghost use Rattle.jam_layout.specs.Index.{index_rules, is_next, slot_at, slots_at};
ghost use Rattle.jam_layout.specs.declared.entry.HeaderEntry.{HeaderEntry};

use crate::conference::SLOT_LIMIT;
use crate::entry::HeaderEntry;
use crate::error::BaseError;
use crate::places::damaged;
use crate::sizes::header_size;
use door_outside::FileId;
use jam_records::{DamageRule, IndexRecord, List, Message, Slot, Slots, u32_at};
use name_crc::name_crc;
use std::alloc::Global;
use std::collections::VecDeque;

/// Both fields of the record of a number that no message has.
const NONE: u32 = 0xFFFF_FFFF;

/// Tests the record at the front.
fn check_pair(place: u8, item: u32, pair: IndexRecord, bytes: &[u8]) -> Result<(), BaseError>
    requires { place < 64 }
    ensures gives { BaseGives (λ x. x) result (by_rules (jdx_file place) item (index_rules pair bytes.now) (tt {0})) }
    ensures long { IfOk result (λ _. 8 ≤ length bytes.now) }
{
    if bytes.len() < 8 {
        return Err(damaged(FileId::jdx(place), item, DamageRule::Short));
    }
    if u32_at(bytes, 0) != pair.to_crc || u32_at(bytes, 4) != pair.offset {
        return Err(damaged(FileId::jdx(place), item, DamageRule::Index));
    }
    Ok(())
}

/// Whether the first entry has this number.
fn starts_with(pending: &VecDeque<HeaderEntry>, number: u32) -> bool
    ensures { result ≡ is_next number pending.now.items }
{
    match pending.front() {
        Some(entry) => entry.number == number,
        None => false,
    }
}

/// Takes the message of the first entry out, where that has this number.
fn take_next(pending: &mut VecDeque<HeaderEntry>, number: u32) -> Option<Message>
    ensures some { IfSome result (λ m. (e : HeaderEntry) × (pending.old.items ≡ e ∷ pending.new.items) × (e.number ≡ number) × (m ≡ e.message)) }
    ensures none { result ≡ None → (pending.new.items ≡ pending.old.items) × (is_next number pending.old.items ≡ false) }
{
    if !starts_with(pending, number) {
        return None;
    }
    match pending.pop_front() {
        Some(entry) => Some(entry.message),
        None => None,
    }
}

/// The slot of the record at the front, and where the next header stands. Its message is taken out of the
/// entries.
fn slot_of(
    place: u8,
    item: u32,
    at: u32,
    pending: &mut VecDeque<HeaderEntry>,
    bytes: &[u8],
) -> Result<(Slot, u32), BaseError>
    requires place { place < 64 }
    requires small { at + sum_by (λ e. size_of_header e.message) pending.old.items < 2 ^ 31 }
    requires few { item < 2 ^ 31 }
    ensures gives { BaseGives (λ x. record { value = x.0; size = 8; next = record { item = item + 1; at = x.1; entries = pending.new.items } }) result (slot_at place (record { item = item; at = at; entries = pending.old.items }) bytes.now) }
    ensures long { IfOk result (λ _. 8 ≤ length bytes.now) }
    ensures small { IfOk result (λ x. x.1 + sum_by (λ e. size_of_header e.message) pending.new.items ≡ at + sum_by (λ e. size_of_header e.message) pending.old.items) }
{
    match take_next(pending, item + 1) {
        None => {
            let pair = IndexRecord {
                to_crc: NONE,
                offset: NONE,
            };
            check_pair(place, item, pair, bytes)?;
            Ok((Slot::Gone, at))
        }
        Some(message) => {
            let pair = IndexRecord {
                to_crc: name_crc(message.to.as_slice()),
                offset: at,
            };
            check_pair(place, item, pair, bytes)?;
            let behind = at + header_size(&message);
            Ok((Slot::Held(message), behind))
        }
    }
}

/// Whether no entry is left.
fn is_done(pending: &VecDeque<HeaderEntry>) -> bool
    ensures { result ≡ (length pending.now.items == 0) }
{
    pending.is_empty()
}

/// The slots that hold the messages of these entries, which are taken out.
fn slots_from(
    alloc: Global,
    place: u8,
    pending: &mut VecDeque<HeaderEntry>,
    bytes: &[u8],
) -> Result<Slots, BaseError>
    requires place { place < 64 }
    requires small { 1024 + sum_by (λ e. size_of_header e.message) pending.old.items < 2 ^ 31 }
    ensures { BaseGives (λ x. x) result (slots_at place 1024 pending.old.items bytes.now) }
{
    if bytes.len() / 8 > SLOT_LIMIT {
        return Err(damaged(FileId::jdx(place), 0, DamageRule::Count));
    }
    let mut slots = Slots::new(alloc);
    let mut item = 0u32;
    let mut at = 1024u32;
    let mut rest = bytes;
    while !rest.is_empty() {
        let (slot, behind) = slot_of(place, item, at, pending, rest)?;
        slots.add(slot)?;
        item += 1;
        at = behind;
        rest = &rest[8..];
    }
    if !is_done(pending) {
        return Err(damaged(FileId::jdx(place), item, DamageRule::Missing));
    }
    Ok(slots)
}

/// The slots that hold the messages. They are moved out of the entries.
pub fn slots_in(
    alloc: Global,
    place: u8,
    entries: List<HeaderEntry>,
    bytes: &[u8],
) -> Result<Slots, BaseError>
    requires place { place < 64 }
    requires small { 1024 + sum_by (λ e. size_of_header e.message) entries < 2 ^ 31 }
    ensures { BaseGives (λ x. x) result (slots_at place 1024 entries bytes.now) }
{
    let mut pending = VecDeque::from_vec(entries.into_vec());
    slots_from(alloc, place, &mut pending, bytes)
}
