// The bodies of messages, which the host holds.
ghost use Rattle.std.specs.Prelude.{◌≡◌, ◌+◌, ◌-◌, ◌≤◌, ◌<◌, ◌==◌, ◌^◌, ◌||◌, length, option_map, slice_index, Err, Some, IfOk, IsTrue};
ghost use Rattle.board_layout.specs.Lookups.{held_in};
ghost use Rattle.board_layout.specs.Outlines.{HasBody};
ghost use Rattle.board_layout.specs.Rules.{HasReadCause};
ghost use Rattle.door_outside.specs.Disk.{Unchanged};
ghost use Rattle.door_outside.specs.File.{jdt_file};
ghost use Rattle.board_layout.specs.jam_base.Contents.{Contents};
ghost use Rattle.board_layout.specs.jam_base.Slots.{numbered};
ghost use Rattle.jam_layout.specs.Bodies.{message_with};
ghost use Rattle.jam_layout.specs.Limits.{slot_limit};
ghost use Rattle.jam_layout.specs.Messages.{IsBody};
ghost use Rattle.jam_layout.specs.Outlines.{message_outline, slot_bare};
ghost use Rattle.jam_layout.specs.Valid.{IsConference};
ghost use Rattle.jam_records.specs.declared.damage.Damage as Damages;
ghost use Rattle.jam_records.specs.declared.message.Slot.TheVariants.{Held};
ghost use Rattle.mail_board.specs.Bodies.{one_held, record_number as record_of, span_text, HasBodies};

use board_layout::{Base, ReadError, Span};
use byte_lists::{Bytes, Duplicate};
use door_outside::{FileId, Host};
use jam_records::{Damage, DamageRule, Message, Slot};
use std::alloc::{AllocError, Global};

/// The error for the body of a record in .JDT of a place.
fn damaged(place: u8, item: u32, rule: DamageRule) -> ReadError
    requires { place < 64 }
    ensures { result ≡ ReadError.Damaged record { file = jdt_file place; item = item; rule = rule } }
{
    ReadError::Damaged(Damage {
        file: FileId::jdt(place).number(),
        item,
        rule,
    })
}

/// Whether bytes are a body: none, or the last ends a line.
fn is_body(bytes: &[u8]) -> bool
    ensures { result ≡ (length bytes.now == 0 || slice_index bytes.now (length bytes.now - 1) == 0x0D) }
{
    bytes.is_empty() || bytes[bytes.len() - 1] == b'\r'
}

/// How many messages the slot of a number holds.
fn held_count(base: &Base, number: u32) -> u32
    ensures { result ≡ one_held (numbered base.now.conference.slots number) }
{
    match base.slot(number) {
        Some(Slot::Held(_)) => 1,
        Some(Slot::Gone) => 0,
        None => 0,
    }
}

/// Which record of the conference the message of a number is, from 1.
fn record_number(base: &Base, number: u32) -> u32
    requires above { 0 < number }
    requires within { number ≤ length base.now.conference.slots }
    requires few { length base.now.conference.slots ≤ slot_limit }
    ensures { result ≡ record_of number base.now.conference.slots }
{
    let mut count = 1;
    for before in 0..number - 1 {
        count += held_count(base, before + 1);
    }
    count
}

/// The body at a span of .JDT of a place. It is that of the message of this number in the place's base.
///
/// `Damaged` comes where the host gives fewer bytes than the span has, or bytes that are no body. It never comes where
/// a host that tells its files has a body there. `DiskFault` comes only where the host's count of disk faults rose.
fn read_body<H: Host>(
    alloc: Global,
    host: &mut H,
    base: &Base,
    place: u8,
    number: u32,
    span: Span,
) -> Result<Bytes, ReadError>
    requires place { place < 64 }
    requires above { 0 < number }
    requires within { number ≤ length base.now.conference.slots }
    requires few { length base.now.conference.slots ≤ slot_limit }
    requires short { span.len < 2 ^ 31 }
    ensures body { IsTrue H.tells → span.at + span.len ≤ length ((H.disk host.old).files (jdt_file place)) → IfOk result (λ body. body ≡ span_text span.at span.len ((H.disk host.old).files (jdt_file place))) }
    ensures long { IfOk result (λ body. length body ≡ span.len) }
    ensures lines { IfOk result IsBody }
    ensures undamaged { IsTrue H.tells → span.at + span.len ≤ length ((H.disk host.old).files (jdt_file place)) → IsBody (span_text span.at span.len ((H.disk host.old).files (jdt_file place))) → (damage : Damages.Damage) → ¬ (result ≡ Err (ReadError.Damaged damage)) }
    ensures unchanged { IsTrue H.tells → Unchanged (H.disk host.old) (H.disk host.new) }
    ensures cause { HasReadCause (H.disk_faults host.old) (H.disk_faults host.new) result }
    ensures voice { H.voice_faults host.new ≡ H.voice_faults host.old }
{
    let mut bytes = vec![in alloc; 0u8; span.len as usize]?;
    let count = host.read_at(FileId::jdt(place), span.at, &mut bytes)?;
    if count < bytes.len() {
        return Err(damaged(place, record_number(base, number), DamageRule::Short));
    }
    if !is_body(bytes.as_slice()) {
        return Err(damaged(place, record_number(base, number), DamageRule::Line));
    }
    Ok(Bytes::from_vec(bytes))
}

/// A copy of a message with this body.
fn with_body(alloc: Global, message: &Message, body: Bytes) -> Result<Message, AllocError>
    ensures { IfOk result (λ copy. copy ≡ message_with message.now body) }
{
    let mut copy = message.duplicate(alloc)?;
    copy.body = body;
    Ok(copy)
}

/// The message of a number in the base of a place, of which `message` is all but the body. The body is read from .JDT
/// of the host, which has the bodies of a base with the outline of this one. Nothing of the host changes.
///
/// `DiskFault` comes only where the host's count of disk faults rose. `Damaged` never comes from a host that tells its
/// files. `OutOfMemory` comes where there is no memory for the message.
pub(crate) fn fetched<H: Host>(
    alloc: Global,
    host: &mut H,
    base: &Base,
    place: u8,
    number: u32,
    message: &Message,
) -> Result<Message, ReadError>
    requires base { IsConference base.now.shape base.now.conference }
    requires place { place < 64 }
    requires there { Some message.now ≡ held_in (slot_bare (numbered base.now.conference.slots number)) }
    ensures message { IsTrue H.tells → (other : Contents) → HasBodies base.now other ((H.disk host.old).files (jdt_file place)) → IfOk result (λ found. Some found ≡ held_in (numbered other.conference.slots number)) }
    ensures outline { IfOk result (λ found. Some (message_outline found) ≡ option_map message_outline (held_in (numbered base.now.conference.slots number))) }
    ensures lines { IfOk result (λ found. HasBody (Held found)) }
    ensures undamaged { IsTrue H.tells → (other : Contents) → HasBodies base.now other ((H.disk host.old).files (jdt_file place)) → (damage : Damages.Damage) → ¬ (result ≡ Err (ReadError.Damaged damage)) }
    ensures unchanged { IsTrue H.tells → Unchanged (H.disk host.old) (H.disk host.new) }
    ensures cause { HasReadCause (H.disk_faults host.old) (H.disk_faults host.new) result }
    ensures voice { H.voice_faults host.new ≡ H.voice_faults host.old }
{
    let Some(span) = base.body_span(number) else {
        unreachable!()
    };
    let body = read_body(alloc, host, base, place, number, span)?;
    let _bytes = body.as_slice();
    Ok(with_body(alloc, message, body)?)
}
