ghost use Rattle.std.specs.Prelude.{◌≡◌, ◌++◌, IfOk, OnOk};
ghost use Rattle.fts_packet.specs.Text.{text_lines, if_any, without_feeds as without_feeds_of};

use byte_lists::{Bytes, Lines};
use std::alloc::{AllocError, Global};
use text_fields::split_at_byte;

/// The bytes without line feeds.
fn without_feeds(alloc: Global, text: &[u8]) -> Result<Bytes, AllocError>
    ensures { IfOk result (λ kept. kept ≡ without_feeds_of text.now) }
{
    let mut kept = Bytes::new(alloc);
    let mut left = text;
    while let Some((front, rest)) = split_at_byte(left, b'\n') {
        kept.add(front)?;
        left = rest;
    }
    kept.add(left)?;
    Ok(kept)
}

/// Adds what follows the last line's end, where it isn't empty.
fn add_last(alloc: Global, lines: &mut Lines, text: &[u8]) -> Result<(), AllocError>
    ensures { OnOk result (lines.new ≡ lines.old ++ if_any (without_feeds_of text.now)) }
{
    let last = without_feeds(alloc, text)?;
    if last.as_slice().is_empty() {
        return Ok(());
    }
    lines.add(last)
}

/// The lines of a text, in time linear in it.
pub fn lines_of(alloc: Global, text: &[u8]) -> Result<Lines, AllocError>
    ensures { IfOk result (λ lines. lines ≡ text_lines text.now) }
{
    let mut lines = Lines::new(alloc);
    let mut rest = text;
    while let Some((line, after)) = split_at_byte(rest, b'\r') {
        lines.add(without_feeds(alloc, line)?)?;
        rest = after;
    }
    add_last(alloc, &mut lines, rest)?;
    Ok(lines)
}
