ghost use Rattle.std.specs.Prelude.{MatchOption};
ghost use Rattle.text_fields.specs.Split.{Lacks, SplitsAt};

use bstr::ByteSlice;

/// What stands before the first byte of this value, and what stands behind it; or None where there
/// is no such byte.
pub fn split_at_byte(text: &[u8], byte: u8) -> Option<(&[u8], &[u8])>
    ensures { MatchOption result (Lacks byte text.now) (λ parts. SplitsAt byte text.now parts.0.now parts.1.now) }
{
    let place = text.find_byte(byte)?;
    Some((&text[..place], &text[place + 1..]))
}
