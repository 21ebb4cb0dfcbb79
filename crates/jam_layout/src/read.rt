ghost use Rattle.std.specs.Prelude.{◌≡◌, ◌≤◌, ◌<◌, ◌^◌, ◌==◌, length, IfOk, Some, Err, Ok};
ghost use Rattle.std.specs.List.{list_all};
ghost use Rattle.jam_records.specs.byte_lists.Memory.{UnlessMemory};
ghost use Rattle.jam_records.specs.record_numbers.Numbers.{u32_at as u32_of};
ghost use Rattle.jam_records.specs.declared.damage.Damage.{Damage};
ghost use Rattle.damage_rules.specs.Rules.{by_rules};
ghost use Rattle.jam_layout.specs.Rules.{BaseGives};
ghost use Rattle.door_outside.specs.File.{jhr_file};
ghost use Rattle.jam_layout.specs.declared.conference.ConferenceContents.{ConferenceContents};
ghost use Rattle.jam_layout.specs.Bare.{bare_of, bare_in as bare_read, IsBareOf};
ghost use Rattle.jam_layout.specs.Layout.{wrong_base as base_wrong, base_rules, layout, base_damage};
ghost use Rattle.jam_layout.specs.Valid.{IsShape, ShapeFits, BaseFilesFit, IsConference};

use crate::bare::{BareConference, ThreadedConference};
use crate::bodies::lengths_of;
use crate::conference::ConferenceContents;
use crate::error::BaseError;
use crate::files::BaseFiles;
use crate::headers::entries_of;
use crate::index::slots_in;
use crate::places::damaged;
use crate::pointers::pointers_of;
use crate::second_pass::check;
use crate::shape::Shape;
use door_outside::FileId;
use jam_records::{DamageRule, u32_at};
use std::alloc::Global;

/// The length of the base header in bytes.
const BASE_HEADER: usize = 1024;

/// Whether each byte is 0.
fn all_zero(bytes: &[u8]) -> bool
    ensures { result ≡ list_all (λ b. b == 0) bytes.now }
{
    bytes.iter().all(|b| *b == 0)
}

/// Whether PasswordCRC, BaseMsgNum or a reserved byte isn't the door's.
#[tactic(auto, unfolding(crate::specs::Layout::wrong_base))]
fn wrong_base(bytes: &[u8]) -> bool
    requires { 1024 ≤ length bytes.now }
    ensures { result ≡ base_wrong bytes.now }
{
    let zeros = all_zero(&bytes[24..BASE_HEADER]);
    (u32_at(bytes, 16) != 0xFFFF_FFFF || u32_at(bytes, 20) != 1) || !zeros
}

/// The change counter of the base header.
#[tactic(auto, unfolding(crate::specs::Layout::base_rules))]
fn counter_of(shape: &Shape, bytes: &[u8]) -> Result<u32, BaseError>
    requires { shape.now.place < 64 }
    ensures gives { BaseGives (λ x. x) result (by_rules (jhr_file shape.now.place) 0 (base_rules shape.now bytes.now) (u32_of 8 bytes.now)) }
    ensures long { IfOk result (λ _. 1024 ≤ length bytes.now) }
{
    if bytes.len() < BASE_HEADER {
        return Err(damaged(FileId::jhr(shape.place), 0, DamageRule::Short));
    }
    if &bytes[..4] != b"JAM\0".as_slice() {
        return Err(damaged(FileId::jhr(shape.place), 0, DamageRule::Signature));
    }
    if u32_at(bytes, 4) != shape.created {
        return Err(damaged(FileId::jhr(shape.place), 0, DamageRule::Created));
    }
    if wrong_base(bytes) {
        return Err(damaged(FileId::jhr(shape.place), 0, DamageRule::Fields));
    }
    Ok(u32_at(bytes, 8))
}

/// The conference of the files without its bodies, or the first rule that they break.
fn bare_in(alloc: Global, files: &BaseFiles, shape: &Shape) -> Result<ThreadedConference, BaseError>
    requires place { shape.now.place < 64 }
    requires jhr { length files.now.jhr < 2 ^ 31 }
    requires jdt { length files.now.jdt < 2 ^ 31 }
    requires jdx { length files.now.jdx < 2 ^ 31 }
    requires jlr { length files.now.jlr < 2 ^ 31 }
    ensures gives { BaseGives (λ x. x) result (bare_read shape.now files.now) }
    ensures files { IfOk result (λ _. BaseFilesFit files.now) }
    ensures shape { ShapeFits shape.now }
{
    let readers = shape.readers();
    let headers = files.jhr.as_slice();
    let counter = counter_of(shape, headers)?;
    let entries = entries_of(alloc, shape.place, shape.kind, &headers[BASE_HEADER..])?;
    let mut threads = check(alloc, shape.place, u32_at(headers, 12), entries.as_slice())?;
    let lengths = lengths_of(alloc, shape.place, entries.as_slice(), files.jdt.as_slice())?;
    let slots = slots_in(alloc, shape.place, entries, files.jdx.as_slice())?;
    let count = slots.len() as u32;
    let pointers = pointers_of(alloc, shape.place, count, readers, files.jlr.as_slice())?;
    let conference = ConferenceContents {
        counter,
        slots,
        pointers,
    };
    threads.fill(count as usize)?;
    let bare = BareConference {
        conference,
        lengths,
    };
    Ok(ThreadedConference::with_threads(bare, threads))
}

/// The conference whose layout the files are (JAM message base proposal, revision 1), without the bodies of its
/// messages: they are tested, but not copied; and the threads of its slots. Each file has fewer than 2^31 bytes, the shape's place is at most 63,
/// and the ids of its readers rise.
///
/// `Damaged` comes where the files are the layout of no conference of that shape, with the first rule that
/// they break. `OutOfMemory` comes where there is no memory. Where both meet, either may be answered.
pub fn read_bare(
    alloc: Global,
    files: &BaseFiles,
    shape: &Shape,
) -> Result<ThreadedConference, BaseError>
    requires shape { IsShape shape.now }
    requires jhr { length files.now.jhr < 2 ^ 31 }
    requires jdt { length files.now.jdt < 2 ^ 31 }
    requires jdx { length files.now.jdx < 2 ^ 31 }
    requires jlr { length files.now.jlr < 2 ^ 31 }
    ensures ok { IfOk result (IsBareOf shape.now files.now) }
    ensures only_ok { (c : ConferenceContents) → IsConference shape.now c → files.now ≡ layout shape.now c → UnlessMemory BaseError.OutOfMemory result (Ok (bare_of c)) }
    ensures damaged { (d : Damage) → result ≡ Err (BaseError.Damaged d) → base_damage shape.now files.now ≡ Some d }
    ensures only_damaged { (d : Damage) → base_damage shape.now files.now ≡ Some d → UnlessMemory BaseError.OutOfMemory result (Err (BaseError.Damaged d)) }
{
    bare_in(alloc, files, shape)
}
