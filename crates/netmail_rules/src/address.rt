ghost use Rattle.std.specs.Prelude.{◌≡◌, IfOk, IfSome};
ghost use Rattle.netmail_rules.specs.AddressLine.{PartReads, NodeReads, AddressReads, part_of as part_in, node_of as node_in, address_of as address_in, stored_address as text_of_address};

use byte_lists::Bytes;
use std::alloc::{AllocError, Global};
use text_fields::{add_decimal, digits_of, split_at_byte};

/// An address in the net. Each number is at most 32,767.
#[derive(Debug, Clone, Copy, PartialEq, Eq)]
pub struct Address {
    /// The zone.
    pub zone: u16,
    /// The net.
    pub net: u16,
    /// The node.
    pub node: u16,
    /// The point, 0 where there is none.
    pub point: u16,
}

/// The number of 1 to 5 digits, or None where the text isn't that, or the number is above 32,767.
fn part_of(digits: &[u8]) -> Option<u16>
    ensures value { result ≡ part_in digits.now }
    ensures reads { IfSome result (PartReads digits.now) }
{
    if digits.len() > 5 {
        return None;
    }
    let number = digits_of(digits)?;
    if number > 32_767 {
        return None;
    }
    Some(number as u16)
}

/// A node, and the point behind it or 0.
fn node_of(text: &[u8]) -> Option<(u16, u16)>
    ensures value { result ≡ node_in text.now }
    ensures reads { IfSome result (NodeReads text.now) }
{
    match split_at_byte(text, b'.') {
        Some((node, point)) => Some((part_of(node)?, part_of(point)?)),
        None => Some((part_of(text)?, 0)),
    }
}

/// The address that a text is, `zone:net/node` or `zone:net/node.point`, or None where it is none.
pub(crate) fn address_of(text: &[u8]) -> Option<Address>
    ensures value { result ≡ address_in text.now }
    ensures reads { IfSome result (AddressReads text.now) }
{
    let (zone, behind_zone) = split_at_byte(text, b':')?;
    let (net, behind_net) = split_at_byte(behind_zone, b'/')?;
    let zone = part_of(zone)?;
    let net = part_of(net)?;
    let (node, point) = node_of(behind_net)?;
    Some(Address {
        zone,
        net,
        node,
        point,
    })
}

/// An address as a message keeps it: without leading zeros, and without a point of 0.
pub(crate) fn stored_address(alloc: Global, address: Address) -> Result<Bytes, AllocError>
    ensures { IfOk result (λ text. text ≡ text_of_address address) }
{
    let mut text = Bytes::new(alloc);
    add_decimal(&mut text, u64::from(address.zone))?;
    text.add(b":")?;
    add_decimal(&mut text, u64::from(address.net))?;
    text.add(b"/")?;
    add_decimal(&mut text, u64::from(address.node))?;
    if address.point != 0 {
        text.add(b".")?;
        add_decimal(&mut text, u64::from(address.point))?;
    }
    Ok(text)
}
