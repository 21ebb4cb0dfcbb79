//! Whether a draft can be put into QWK.
ghost use Rattle.std.specs.Prelude.{◌≤◌, ◌↔◌, All, IsTrue, length};
ghost use Rattle.text_fields.specs.Split.{Lacks};
ghost use Rattle.qwk_blocks.specs.Text.{joined_lines};
ghost use Rattle.offline_writer.specs.Fitting.{FitsField, FitsQwk};

use byte_lists::Lines;
use long_names::{LineField, is_long};
use qwk_blocks::QwkMessage;

/// The bytes that To and the subject have room for.
const FIELD: usize = 25;

/// The byte that ends a line in QWK.
const LINE_END: u8 = 0xE3;

/// The most bytes of a text, with one behind each line.
const TEXT: usize = 16_384;

/// Whether a line lacks a byte.
fn lacks(line: &[u8], byte: u8) -> bool
    ensures { IsTrue result ↔ Lacks byte line.now }
{
    line.iter().all(|b| *b != byte)
}

/// Whether all lines do.
fn all_lack(lines: &Lines, byte: u8) -> bool
    ensures { IsTrue result ↔ All (Lacks byte) lines.now }
{
    lines
        .as_slice()
        .iter()
        .all(|line| lacks(line.as_slice(), byte))
}

/// Whether lines have at most so many bytes, with one behind each.
fn are_short(lines: &Lines, most: usize) -> bool
    ensures { IsTrue result ↔ (length (joined_lines lines.now) ≤ most) }
{
    let mut left = most;
    for line in lines.as_slice() {
        let size = line.as_slice().len();
        if size >= left {
            return false;
        }
        left -= size + 1;
    }
    true
}

/// Whether a value has room in its field or goes as a line.
fn fits_field(field: LineField, value: &[u8]) -> bool
    ensures { IsTrue result ↔ FitsField field value.now }
{
    value.len() <= FIELD || is_long(value, field.most())
}

/// Whether a draft can be put into QWK.
pub(crate) fn fits_qwk(draft: &QwkMessage) -> bool
    ensures { IsTrue result ↔ FitsQwk draft.now }
{
    if !fits_field(LineField::To, draft.header.to.as_slice()) {
        return false;
    }
    if !fits_field(LineField::Subject, draft.header.subject.as_slice()) {
        return false;
    }
    if !all_lack(&draft.lines, LINE_END) {
        return false;
    }
    if !all_lack(&draft.lines, b'\r') {
        return false;
    }
    are_short(&draft.lines, TEXT)
}
