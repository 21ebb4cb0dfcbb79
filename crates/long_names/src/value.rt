ghost use Rattle.std.specs.Prelude.{◌≡◌};
ghost use Rattle.std.specs.List.{list_all};
ghost use Rattle.long_names.specs.Value.{short_form as short_form_of, is_plain_byte as is_plain_byte_of, is_long as is_long_of};

use text_fields::{Blank, trimmed_end};

/// The bytes that a field has room for.
const FIELD: usize = 25;

/// The byte that ends a line in QWK.
const LINE_END: u8 = 0xE3;

/// The first 25 bytes of a value, without the spaces at their end: what its field has room for.
pub fn short_form(value: &[u8]) -> &[u8]
    ensures { result.now ≡ short_form_of value.now }
{
    trimmed_end(&value[..value.len().min(FIELD)], Blank::Spaces)
}

/// Whether a byte may stand in a value that goes as a line.
fn is_plain_byte(b: u8) -> bool
    ensures { result ≡ is_plain_byte_of b }
{
    b >= 0x20 && b != LINE_END
}

/// Whether all bytes may.
fn are_plain_bytes(value: &[u8]) -> bool
    ensures { result ≡ list_all is_plain_byte_of value.now }
{
    value.iter().all(|b| is_plain_byte(*b))
}

/// Whether a value goes as a line: it has more than 25 bytes and at most so many, no space at either end, no E3h and
/// no byte below 20h.
#[tactic(auto, unfolding(crate::specs::Value::is_long))]
pub fn is_long(value: &[u8], most: usize) -> bool
    ensures { result ≡ is_long_of most value.now }
{
    if value.len() <= FIELD {
        return false;
    }
    if value.len() > most {
        return false;
    }
    if value[0] == b' ' {
        return false;
    }
    if value[value.len() - 1] == b' ' {
        return false;
    }
    are_plain_bytes(value)
}
