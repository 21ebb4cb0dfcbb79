ghost use Rattle.text_fields.specs.Blank.{IsBlank};
ghost use Rattle.text_fields.specs.Trim.{Trimmed, TrimmedEnd};

use crate::blank::Blank;

/// The bytes without the blanks at their end.
pub fn trimmed_end(field: &[u8], blank: Blank) -> &[u8]
    ensures { TrimmedEnd (IsBlank blank) field.now result.now }
{
    let mut text = field;
    while let [front @ .., last] = text {
        if !blank.is_blank(*last) {
            break;
        }
        text = front;
    }
    text
}

/// The bytes without the blanks at both ends.
pub fn trimmed(field: &[u8], blank: Blank) -> &[u8]
    ensures { Trimmed (IsBlank blank) field.now result.now }
{
    let mut text = trimmed_end(field, blank);
    while let [first, rest @ ..] = text {
        if !blank.is_blank(*first) {
            break;
        }
        text = rest;
    }
    text
}
