ghost use Rattle.std.specs.Prelude.{◌≤◌, ◌<◌, ◌-◌, ◌↔◌, All, IsTrue, IfSome};
ghost use Rattle.qwk_blocks.specs.Text.{IsLine};
ghost use Rattle.qwk_blocks.specs.Written.{TextFits, HeaderTextsFit, HeaderFits, Writable};

use crate::header::BLOCK;
use crate::message::{Header, QwkMessage};
use crate::text::{LINE_END, text_len};
use text_fields::{Blank, Lines};

/// Whether a text has at most so many bytes, and no blank at its end.
fn text_fits(width: usize, text: &[u8]) -> bool
    ensures { IsTrue result ↔ TextFits width text.now }
{
    if text.len() > width {
        return false;
    }
    match text {
        [] => true,
        [.., last] => !Blank::SpacesAndNuls.is_blank(*last),
    }
}

/// Whether a number is at most so great, if it is there.
fn number_fits(most: u32, number: Option<u32>) -> bool
    ensures { IsTrue result ↔ IfSome number (λ n. n ≤ most) }
{
    match number {
        None => true,
        Some(n) => n <= most,
    }
}

/// Whether the texts of a header fit their fields.
fn texts_fit(header: &Header) -> bool
    ensures { IsTrue result ↔ HeaderTextsFit header.now }
{
    if !text_fits(25, header.to.as_slice()) {
        return false;
    }
    if !text_fits(25, header.from.as_slice()) {
        return false;
    }
    if !text_fits(25, header.subject.as_slice()) {
        return false;
    }
    text_fits(12, header.password.as_slice())
}

/// Whether a header has a written form.
fn header_fits(header: &Header) -> bool
    ensures { IsTrue result ↔ HeaderFits header.now }
{
    let _date = header.date;
    let _time = header.time;
    let _conference = header.conference;
    let _logical = header.logical;
    if !number_fits(9_999_999, header.number) {
        return false;
    }
    if !number_fits(99_999_999, header.reference) {
        return false;
    }
    texts_fit(header)
}

/// Whether a line has no line's end in it.
fn is_line(line: &[u8]) -> bool
    ensures { IsTrue result ↔ IsLine line.now }
{
    line.iter().all(|b| *b != LINE_END)
}

/// Whether no line has a line's end in it.
fn lines_fit(lines: &Lines) -> bool
    ensures { IsTrue result ↔ All IsLine lines.now }
{
    lines.as_slice().iter().all(|line| is_line(line.as_slice()))
}

impl QwkMessage {
    ghost use Rattle.std.specs.Prelude.{◌↔◌, IsTrue};
    ghost use Rattle.qwk_blocks.specs.Written.{Writable};

    /// Whether the message can be written. It can where all of these hold:
    ///
    /// - Its number is at most 9,999,999, and its reference at most 99,999,999.
    /// - To, From and Subject have at most 25 bytes, and the password at most 12. None of them ends with a space or a
    ///   NUL.
    /// - No line has E3h in it.
    /// - It takes at most 999,999 blocks.
    ///
    /// For callers of the library; the program doesn't call it.
    pub fn writable(&self) -> bool
        ensures { IsTrue result ↔ Writable self.now }
    {
        header_fits(&self.header)
            && lines_fit(&self.lines)
            && text_len(&self.lines) <= BLOCK * 999_998
    }
}
