ghost use Rattle.std.specs.Prelude.{◌≡◌, ◌⊎◌, ◌≤◌, ◌↔◌, ℕ, All, IsTrue, MatchOption, codes};
ghost use Rattle.import_sheet.specs.Header.{IsPlainText, DateIs, ValueFits};

use crate::field::Field;
use text_fields::digits_of;

/// Whether no byte is below 20h.
fn is_plain(value: &[u8]) -> bool
    ensures { IsTrue result ↔ All (λ b. 0x20 ≤ b) value.now }
{
    value.iter().all(|b| *b >= 0x20)
}

/// Whether a text has so many bytes at least and at most, and none below 20h.
fn text_fits(value: &[u8], least: usize, most: usize) -> bool
    ensures { IsTrue result ↔ IsPlainText least most value.now }
{
    if value.len() < least {
        return false;
    }
    if value.len() > most {
        return false;
    }
    is_plain(value)
}

/// The date that a value says, or None where it isn't 1 to 10 digits of at most 4,294,967,295.
pub fn date_of(value: &[u8]) -> Option<u32>
    ensures { MatchOption result ((n : ℕ) → ¬ DateIs value.now n) (DateIs value.now) }
{
    if value.len() > 10 {
        return None;
    }
    match digits_of(value) {
        Some(date) if date <= 4_294_967_295 => Some(date as u32),
        _ => None,
    }
}

/// Whether a value says that the message is private.
pub fn says_yes(value: &[u8]) -> bool
    ensures { IsTrue result ↔ value.now ≡ codes "yes" }
{
    value == b"yes".as_slice()
}

/// Whether a value says whether the message is private.
fn privacy_fits(value: &[u8]) -> bool
    ensures { IsTrue result ↔ (value.now ≡ codes "yes") ⊎ (value.now ≡ codes "no") }
{
    says_yes(value) || value == b"no".as_slice()
}

/// Whether the field may have this value.
pub fn value_fits(field: Field, value: &[u8]) -> bool
    ensures { IsTrue result ↔ ValueFits field value.now }
{
    match field {
        Field::From | Field::To => text_fits(value, 1, 36),
        Field::Subject => text_fits(value, 0, 72),
        Field::Date => date_of(value).is_some(),
        Field::Msgid | Field::Reply => text_fits(value, 1, 80),
        Field::Private => privacy_fits(value),
    }
}
