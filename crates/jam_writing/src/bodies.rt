ghost use Rattle.std.specs.Prelude.{◌≡◌, ◌-◌, ◌^◌, length, min, sum_by, IfOk};
ghost use Rattle.std.specs.List.{flat_map};

use jam_records::{Bytes, Message};
use std::alloc::{AllocError, Global};

/// How many bytes the bodies of messages have, up to the greatest number.
fn room_for(messages: &[Message]) -> usize
    ensures { result ≡ min (sum_by (λ m. length m.body) messages.now) (2 ^ 64 - 1) }
{
    let mut count = 0usize;
    for message in messages {
        count = count.saturating_add(message.body.as_slice().len());
    }
    count
}

/// What messages give to .JDT: their bodies, one after the other.
///
/// The error comes where there is no memory.
pub fn write_bodies(alloc: Global, messages: &[Message]) -> Result<Bytes, AllocError>
    ensures { IfOk result (λ text. text ≡ flat_map (λ m. m.body) messages.now) }
{
    let mut text = Bytes::new(alloc);
    text.reserve(room_for(messages))?;
    for message in messages {
        text.add(message.body.as_slice())?;
    }
    Ok(text)
}
