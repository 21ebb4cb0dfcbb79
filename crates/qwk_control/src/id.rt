ghost use Rattle.std.specs.Prelude.{◌↔◌, ◌≤◌, ℕ, List, All, IsTrue, MatchOption};
ghost use Rattle.qwk_control.specs.Line.{IdLine, IsId};

use text_fields::{Blank, split_at_byte, trimmed};

/// Whether each byte is printed, and no space.
fn is_printed(id: &[u8]) -> bool
    ensures { IsTrue result ↔ All (λ b. (0x21 ≤ b) × (b ≤ 0x7E)) id.now }
{
    id.iter().all(|b| 0x21 <= *b && *b <= 0x7E)
}

/// Whether this is a board id.
pub fn is_id(id: &[u8]) -> bool
    ensures { IsTrue result ↔ IsId id.now }
{
    if id.is_empty() {
        return false;
    }
    if id.len() > 8 {
        return false;
    }
    is_printed(id)
}

/// The serial and the board id of a line, or None where it has none.
pub fn id_of(line: &[u8]) -> Option<(&[u8], &[u8])>
    ensures { MatchOption result ((serial id : List ℕ) → ¬ IdLine line.now serial id) (λ found. IdLine line.now found.0.now found.1.now) }
{
    let Some((serial, rest)) = split_at_byte(line, b',') else {
        return None;
    };
    let id = trimmed(rest, Blank::Spaces);
    if !is_id(id) {
        return None;
    }
    Some((serial, id))
}
