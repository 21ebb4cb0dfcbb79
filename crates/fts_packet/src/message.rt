ghost use Rattle.std.specs.Prelude.{◌≡◌, IfOk, length};
ghost use Rattle.record_numbers.specs.Numbers.{u16_at as u16_of};
ghost use Rattle.fts_packet.specs.Packet.{fts_address as address_in};
ghost use Rattle.fts_packet.specs.Answer.{IsMadeFrom};

use crate::address::address_of;
use crate::packet::FtsMessage;
use crate::parts::Parts;
use crate::text::lines_of;
use byte_lists::Bytes;
use record_numbers::u16_at;
use std::alloc::{AllocError, Global};

/// The address that a message comes from, by the packet's header and the bytes before To.
fn origin_of(alloc: Global, header: &[u8], front: &[u8]) -> Result<Bytes, AllocError>
    requires header { length header.now ≡ 58 }
    requires front { length front.now ≡ 34 }
    ensures { IfOk result (λ text. text ≡ address_in (u16_of 34 header.now) (u16_of 6 front.now) (u16_of 2 front.now)) }
{
    let zone = u16_at(header, 34);
    address_of(alloc, zone, u16_at(front, 6), u16_at(front, 2))
}

/// The address that it goes to.
fn destination_of(alloc: Global, header: &[u8], front: &[u8]) -> Result<Bytes, AllocError>
    requires header { length header.now ≡ 58 }
    requires front { length front.now ≡ 34 }
    ensures { IfOk result (λ text. text ≡ address_in (u16_of 36 header.now) (u16_of 8 front.now) (u16_of 4 front.now)) }
{
    let zone = u16_at(header, 36);
    address_of(alloc, zone, u16_at(front, 8), u16_at(front, 4))
}

/// The message of these parts, in a packet with this header.
pub fn message_of(alloc: Global, header: &[u8], parts: Parts<'_>) -> Result<FtsMessage, AllocError>
    requires header { length header.now ≡ 58 }
    requires front { length parts.front.now ≡ 34 }
    ensures { IfOk result (IsMadeFrom header.now parts.entry) }
{
    let front = parts.front;
    let mut date = [0u8; 20];
    date.copy_from_slice(&front[14..34]);
    Ok(FtsMessage {
        origin: origin_of(alloc, header, front)?,
        destination: destination_of(alloc, header, front)?,
        date,
        to: Bytes::from_slice(alloc, parts.to)?,
        from: Bytes::from_slice(alloc, parts.from)?,
        subject: Bytes::from_slice(alloc, parts.subject)?,
        lines: lines_of(alloc, parts.text)?,
    })
}
