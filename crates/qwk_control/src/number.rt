ghost use Rattle.std.specs.Prelude.{ℕ, MatchOption};
ghost use Rattle.qwk_control.specs.Line.{NumberLine, PlaceLine};

use text_fields::{Blank, number_of};

/// The number of a line.
pub fn line_number(line: &[u8]) -> Option<u32>
    ensures { MatchOption result ((n : ℕ) → ¬ NumberLine line.now n) (NumberLine line.now) }
{
    match number_of(line, Blank::Spaces, 9) {
        Some(number) => Some(number as u32),
        None => None,
    }
}

/// The number of a line, of at most 65,535.
pub fn place_number(line: &[u8]) -> Option<u16>
    ensures { MatchOption result ((n : ℕ) → ¬ PlaceLine line.now n) (PlaceLine line.now) }
{
    match line_number(line) {
        Some(number) if number <= 65535 => Some(number as u16),
        _ => None,
    }
}
