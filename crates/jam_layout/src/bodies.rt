ghost use Rattle.std.specs.Prelude.{◌+◌, ◌≤◌, ◌<◌, ◌^◌, length, take, IfOk};
ghost use Rattle.damage_rules.specs.Rules.{by_rules};
ghost use Rattle.jam_layout.specs.Rules.{BaseGives};
ghost use Rattle.door_outside.specs.File.{jdt_file};
ghost use Rattle.jam_layout.specs.Bodies.{body_rules, lengths_at};

use crate::entry::HeaderEntry;
use crate::error::BaseError;
use crate::places::damaged;
use door_outside::FileId;
use jam_records::{DamageRule, List};
use std::alloc::Global;

/// Tests the body of this length at the front.
fn check_body(place: u8, item: u32, text_len: u32, bytes: &[u8]) -> Result<(), BaseError>
    requires { place < 64 }
    ensures gives { BaseGives (λ unit. take text_len bytes.now) result (by_rules (jdt_file place) item (body_rules text_len bytes.now) (take text_len bytes.now)) }
    ensures long { IfOk result (λ unit. text_len ≤ length bytes.now) }
{
    let len = text_len as usize;
    if bytes.len() < len {
        return Err(damaged(FileId::jdt(place), item, DamageRule::Short));
    }
    if len != 0 && bytes[len - 1] != b'\r' {
        return Err(damaged(FileId::jdt(place), item, DamageRule::Line));
    }
    Ok(())
}

/// The lengths of the bodies of these entries, which are tested.
pub fn lengths_of(
    alloc: Global,
    place: u8,
    entries: &[HeaderEntry],
    bytes: &[u8],
) -> Result<List<u32>, BaseError>
    requires place { place < 64 }
    requires few { length entries.now < 2 ^ 31 }
    ensures { BaseGives (λ x. x) result (lengths_at place entries.now bytes.now) }
{
    let mut lengths = List::new(alloc);
    let mut rest = bytes;
    for (i, entry) in entries.iter().enumerate() {
        check_body(place, i as u32 + 1, entry.text_len, rest)?;
        lengths.add(entry.text_len)?;
        rest = &rest[entry.text_len as usize..];
    }
    if !rest.is_empty() {
        return Err(damaged(
            FileId::jdt(place),
            entries.len() as u32 + 1,
            DamageRule::Rest,
        ));
    }
    Ok(lengths)
}
