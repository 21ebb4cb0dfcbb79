ghost use Rattle.std.specs.Prelude.{◌≡◌, IfOk};
ghost use Rattle.fts_packet.specs.Packet.{are_parts as are_parts_of, fts_address as address_in};

use byte_lists::Bytes;
use std::alloc::{AllocError, Global};
use text_fields::add_decimal;

/// Whether no number is above 32,767.
fn are_parts(zone: u16, net: u16, node: u16) -> bool
    ensures { result ≡ are_parts_of zone net node }
{
    zone <= 32_767 && net <= 32_767 && node <= 32_767
}

/// The length of the longest address: three numbers of five digits, a `:` and a `/`.
const LONGEST: usize = 17;

/// The address of these numbers, as a message keeps it: `zone:net/node`, or nothing where one is above
/// 32,767.
pub fn address_of(alloc: Global, zone: u16, net: u16, node: u16) -> Result<Bytes, AllocError>
    ensures { IfOk result (λ text. text ≡ address_in zone net node) }
{
    let mut text = Bytes::new(alloc);
    if !are_parts(zone, net, node) {
        return Ok(text);
    }
    text.reserve(LONGEST)?;
    add_decimal(&mut text, u64::from(zone))?;
    text.add(b":")?;
    add_decimal(&mut text, u64::from(net))?;
    text.add(b"/")?;
    add_decimal(&mut text, u64::from(node))?;
    Ok(text)
}
