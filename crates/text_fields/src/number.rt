ghost use Rattle.std.specs.Prelude.{◌≤◌, ℕ, MatchOption};
ghost use Rattle.text_fields.specs.Blank.{IsBlank};
ghost use Rattle.text_fields.specs.Number.{Number};

use crate::blank::Blank;
use crate::digits::digits_of;
use crate::trim::trimmed;

/// The number that a field has between its blanks, or None where what stands there isn't digits, one at
/// least and `most` at most. `most` is at most 19.
pub fn number_of(field: &[u8], blank: Blank, most: usize) -> Option<u64>
    requires { most ≤ 19 }
    ensures { MatchOption result ((n : ℕ) → ¬ Number (IsBlank blank) most field.now n) (Number (IsBlank blank) most field.now) }
{
    let digits = trimmed(field, blank);
    if digits.len() > most {
        return None;
    }
    digits_of(digits)
}
