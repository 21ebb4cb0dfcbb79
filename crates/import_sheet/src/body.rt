ghost use Rattle.std.specs.Prelude.{◌≡◌, ◌≤◌, ◌+◌, ◌<◌, ◌↔◌, [], ◌∷◌, ◌++◌, length, IsTrue, MatchResult, OnOk};
ghost use Rattle.std.specs.Str.Lines.{lines};
ghost use Rattle.text_fields.specs.Split.{Lacks};
ghost use Rattle.import_sheet.specs.Sheet.{dot, without_dot as without_its_dot};
ghost use Rattle.import_sheet.specs.State.{IsNumbered, BodyTaken, SheetFaultOrMemory, BodyFaultAt};

use crate::fault::{SheetError, SheetRule};
use crate::unread::breaks;
use byte_lists::Bytes;
use std::alloc::{AllocError, Global};
use text_fields::{Unread, split_at_byte};

/// The most bytes that a body has.
const MOST: usize = 16_384;

/// Whether a line is one dot, which ends a body.
fn is_dot(line: &[u8]) -> bool
    ensures { IsTrue result ↔ line.now ≡ dot }
{
    line == b".".as_slice()
}

/// A line without the dot that it may begin with.
fn without_dot(line: &[u8]) -> &[u8]
    ensures { result.now ≡ without_its_dot line.now }
{
    match line {
        [b'.', rest @ ..] => rest,
        _ => line,
    }
}

/// Whether a line holds no carriage return.
fn has_no_return(line: &[u8]) -> bool
    ensures { IsTrue result ↔ Lacks 13 line.now }
{
    match split_at_byte(line, b'\r') {
        None => true,
        Some(_) => false,
    }
}

/// Whether there is room for a line and its carriage return in a body.
fn has_room(body: &Bytes, line: &[u8]) -> bool
    requires { length body.now ≤ 16384 }
    ensures { IsTrue result ↔ length body.now + length line.now < 16384 }
{
    line.len() < MOST - body.as_slice().len()
}

/// Adds a line and its carriage return to a body, in room for both.
fn add_body_line(body: &mut Bytes, line: &[u8]) -> Result<(), AllocError>
    ensures { OnOk result (body.new ≡ body.old ++ (line.now ++ 13 ∷ [])) }
{
    body.reserve(line.len().saturating_add(1))?;
    body.add(line)?;
    body.add(b"\r")
}

/// The body that a message's lines give, and what stands behind the line of one dot.
pub fn body_of(alloc: Global, start: Unread<'_>) -> Result<(Bytes, Unread<'_>), SheetError>
    requires { IsNumbered (lines start.text.now) start.line }
    ensures { MatchResult result (λ taken. BodyTaken (lines start.entry.text.now) start.entry.line taken.0 (lines taken.1.text.now) taken.1.line) (SheetFaultOrMemory (BodyFaultAt (lines start.entry.text.now) start.entry.line)) }
{
    let mut body = Bytes::new(alloc);
    let mut here = start;
    while let Some((line, after)) = here.next() {
        if is_dot(line) {
            return Ok((body, after));
        }
        if !has_no_return(line) {
            return Err(breaks(here, SheetRule::Byte));
        }
        let text = without_dot(line);
        if !has_room(&body, text) {
            return Err(breaks(here, SheetRule::Length));
        }
        add_body_line(&mut body, text)?;
        here = after;
    }
    Err(breaks(here, SheetRule::End))
}
