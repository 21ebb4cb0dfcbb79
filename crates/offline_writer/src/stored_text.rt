//! The lines of a stored text.
ghost use Rattle.std.specs.Prelude.{◌≡◌, IfOk};
ghost use Rattle.offline_writer.specs.Drafts.{stored_lines as stored_lines_of};

use byte_lists::{Bytes, Lines};
use std::alloc::{AllocError, Global};
use text_fields::split_at_byte;

/// The lines of a stored text, each of which ends with a carriage return. The last one may lack it.
pub(crate) fn stored_lines(alloc: Global, body: &[u8]) -> Result<Lines, AllocError>
    ensures { IfOk result (λ lines. lines ≡ stored_lines_of body.now) }
{
    let mut lines = Lines::new(alloc);
    let mut rest = body;
    while let Some((line, behind)) = split_at_byte(rest, b'\r') {
        lines.add(Bytes::from_slice(alloc, line)?)?;
        rest = behind;
    }
    if rest.is_empty() {
        return Ok(lines);
    }
    lines.add(Bytes::from_slice(alloc, rest)?)?;
    Ok(lines)
}
