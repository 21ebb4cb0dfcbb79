ghost use Rattle.std.specs.Prelude.{◌≡◌, ◌↔◌, MatchOption, slice_range};
ghost use Rattle.text_fields.specs.Split.{Lacks};
ghost use Rattle.setup_file.specs.Words.{past_spaces as text_past_spaces};
ghost use Rattle.jam_layout.specs.Fields.{is_text};
ghost use Rattle.netmail_rules.specs.AddressLine.{SplitsAtLast, IsAddressLine, net_line, is_plain as is_plain_text};
ghost use Rattle.netmail_rules.specs.declared.net_line.NetLine.{NetLine};

use crate::address::{Address, address_of};
use bstr::ByteSlice;
use text_fields::{Blank, trimmed_end};

/// What an address line names.
#[derive(Debug, Clone, Copy, PartialEq, Eq)]
pub struct NetLine {
    /// Where the name begins in the line.
    pub name_from: usize,
    /// Where the name ends, which is where the `@` stands.
    pub name_to: usize,
    /// The address.
    pub address: Address,
}

impl NetLine {
    /// The name in the line that it was read from.
    pub(crate) fn name(self, line: &[u8]) -> &[u8]
        requires { IsAddressLine line.now self }
        ensures { result.now ≡ slice_range line.now self.name_from self.name_to }
    {
        &line[self.name_from..self.name_to]
    }
}

/// What stands before the last byte of this value, and what stands behind it; or None where there is no
/// such byte.
fn split_at_last(text: &[u8], byte: u8) -> Option<(&[u8], &[u8])>
    ensures { MatchOption result (Lacks byte text.now) (λ parts. SplitsAtLast byte text.now parts.0.now parts.1.now) }
{
    let place = text.rfind_byte(byte)?;
    Some((&text[..place], &text[place + 1..]))
}

/// The bytes without the spaces at the front.
fn past_spaces(text: &[u8]) -> &[u8]
    ensures { result.now ≡ text_past_spaces text.now }
{
    let mut rest = text;
    while let [b' ', more @ ..] = rest {
        rest = more;
    }
    rest
}

/// Whether no byte is below 20h.
pub(crate) fn is_plain(text: &[u8]) -> bool
    ensures { result ≡ is_plain_text text.now }
{
    text.iter().all(|b| 0x20 <= *b)
}

/// Whether a text is a name: 1 to 36 bytes, none below 20h.
#[tactic(auto, unfolding(jam_layout::specs::Fields::is_text))]
fn is_name(text: &[u8]) -> bool
    ensures { result ≡ is_text 36 text.now }
{
    let plain = is_plain(text);
    1 <= text.len() && text.len() <= 36 && plain
}

/// What an address line names, or None where the line isn't one. An address line is, without the spaces
/// at its ends, a name of 1 to 36 bytes, none below 20h, `@`, and `zone:net/node` or `zone:net/node.point`,
/// where each number has 1 to 5 digits and is at most 32,767. No address has an `@`, so the line is split at
/// the last one. It takes no memory.
pub fn address_line(line: &[u8]) -> Option<NetLine>
    ensures value { result ≡ net_line line.now }
    ensures reads { (found : NetLine) → (result ≡ Some found) ↔ IsAddressLine line.now found }
{
    let (front, behind) = split_at_last(line, b'@')?;
    let name = past_spaces(front);
    if !is_name(name) {
        return None;
    }
    let address = address_of(trimmed_end(behind, Blank::Spaces))?;
    Some(NetLine {
        name_from: front.len() - name.len(),
        name_to: front.len(),
        address,
    })
}
