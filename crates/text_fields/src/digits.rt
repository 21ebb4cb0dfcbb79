ghost use Rattle.std.specs.Prelude.{◌≡◌, ◌++◌, ◌≤◌, ℕ, length, decimal, MatchOption, OnOk, OnErr};
ghost use Rattle.text_fields.specs.Number.{Digits};

use byte_lists::Bytes;
use itoa::Buffer;
use std::alloc::AllocError;

/// The value of decimal digits, at most 19 of them, or None where the bytes aren't one or more digits and
/// nothing else. Leading zeros count as digits.
pub fn digits_of(digits: &[u8]) -> Option<u64>
    requires { length digits.now ≤ 19 }
    ensures { MatchOption result ((n : ℕ) → ¬ Digits digits.now n) (Digits digits.now) }
{
    if digits.is_empty() {
        return None;
    }
    let mut n = 0u64;
    for digit in digits {
        let Some(value) = char::from(*digit).to_digit(10) else {
            return None;
        };
        n = n * 10 + u64::from(value);
    }
    Some(n)
}

/// Adds the decimal digits of a number, without leading zeros, at the end of a text. Where there is no memory, the text is
/// unchanged.
pub fn add_decimal(text: &mut Bytes, n: u64) -> Result<(), AllocError>
    ensures ok { OnOk result (text.new ≡ text.old ++ decimal n) }
    ensures err { OnErr result (text.new ≡ text.old) }
{
    let mut buffer = Buffer::new();
    text.add(buffer.format(n).as_bytes())
}
