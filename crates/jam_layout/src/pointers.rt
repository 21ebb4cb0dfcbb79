ghost use Rattle.std.specs.Prelude.{◌≤◌, ◌<◌, ◌^◌, length, IfOk};
ghost use Rattle.jam_records.specs.record_numbers.Numbers.{u32_at as u32_of};
ghost use Rattle.damage_rules.specs.Rules.{by_rules};
ghost use Rattle.jam_layout.specs.Rules.{BaseGives};
ghost use Rattle.door_outside.specs.File.{jlr_file};
ghost use Rattle.jam_layout.specs.Readers.{reader_rules, pointers_at};

use crate::error::BaseError;
use crate::places::damaged;
use crate::reader::Reader;
use crate::reader_list::Readers;
use door_outside::FileId;
use jam_records::{DamageRule, List, u32_at};
use name_crc::name_crc;
use std::alloc::Global;

/// The pointer of a reader, whose record is at the front.
fn pointer_of(
    place: u8,
    count: u32,
    item: u32,
    reader: &Reader,
    bytes: &[u8],
) -> Result<u32, BaseError>
    requires { place < 64 }
    ensures gives { BaseGives (λ x. x) result (by_rules (jlr_file place) item (reader_rules count reader.now bytes.now) (u32_of 8 bytes.now)) }
    ensures long { IfOk result (λ _. 16 ≤ length bytes.now) }
{
    if bytes.len() < 16 {
        return Err(damaged(FileId::jlr(place), item, DamageRule::Short));
    }
    if u32_at(bytes, 0) != name_crc(reader.name.as_slice()) || u32_at(bytes, 4) != reader.id {
        return Err(damaged(FileId::jlr(place), item, DamageRule::Reader));
    }
    let pointer = u32_at(bytes, 8);
    if pointer != u32_at(bytes, 12) || pointer > count {
        return Err(damaged(FileId::jlr(place), item, DamageRule::Pointer));
    }
    Ok(pointer)
}

/// The pointers of the readers, one record each.
pub fn pointers_of(
    alloc: Global,
    place: u8,
    count: u32,
    readers: &Readers,
    bytes: &[u8],
) -> Result<List<u32>, BaseError>
    requires place { place < 64 }
    requires short { length bytes.now < 2 ^ 31 }
    ensures { BaseGives (λ x. x) result (pointers_at place count 0 readers.now bytes.now) }
{
    let mut pointers = List::new(alloc);
    let mut rest = bytes;
    for j in 0..readers.len() {
        let pointer = pointer_of(place, count, j as u32, readers.at(j), rest)?;
        pointers.add(pointer)?;
        rest = &rest[16..];
    }
    if !rest.is_empty() {
        return Err(damaged(FileId::jlr(place), readers.len() as u32, DamageRule::Rest));
    }
    Ok(pointers)
}
