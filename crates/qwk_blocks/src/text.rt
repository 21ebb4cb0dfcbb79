ghost use Rattle.std.specs.Prelude.{◌≡◌, ◌-◌, ◌^◌, length, min, IfOk};
ghost use Rattle.qwk_blocks.specs.Text.{joined_lines, TextReads};

use std::alloc::{AllocError, Global};
use text_fields::{Blank, Bytes, Lines, split_at_byte, trimmed_end};

/// The byte behind each line.
pub const LINE_END: u8 = 0xE3;

/// The lines of a text.
pub fn lines_of(alloc: Global, text: &[u8]) -> Result<Lines, AllocError>
    ensures { IfOk result (λ lines. TextReads text.now lines) }
{
    let mut lines = Lines::new(alloc);
    let mut rest = text;
    while let Some((line, after)) = split_at_byte(rest, LINE_END) {
        lines.add(Bytes::from_slice(alloc, line)?)?;
        rest = after;
    }
    let last = trimmed_end(rest, Blank::SpacesAndNuls);
    if !last.is_empty() {
        lines.add(Bytes::from_slice(alloc, last)?)?;
    }
    Ok(lines)
}

/// The bytes of a text of these lines, each with its end, up to the greatest number.
pub fn text_len(lines: &Lines) -> usize
    ensures { result ≡ min (length (joined_lines lines.now)) (2 ^ 64 - 1) }
{
    let mut len = 0usize;
    for line in lines.as_slice() {
        len = len.saturating_add(line.as_slice().len()).saturating_add(1);
    }
    len
}
