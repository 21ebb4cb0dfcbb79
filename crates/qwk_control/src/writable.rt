ghost use Rattle.std.specs.Prelude.{◌↔◌, IsTrue};
ghost use Rattle.text_fields.specs.Split.{Lacks};
ghost use Rattle.qwk_control.specs.Written.{IsText, TextsFit, FilesFit, ConferenceFits, ConferencesFit};

use crate::control::{Control, Listed};
use crate::id::is_id;
use byte_lists::Bytes;

/// Whether a text has no CR and no LF.
fn is_text(text: &Bytes) -> bool
    ensures { IsTrue result ↔ IsText text.now }
{
    text.as_slice().iter().all(|b| *b != b'\n' && *b != b'\r')
}

/// Whether the texts of the first eight lines can be written.
fn texts_fit(control: &Control) -> bool
    ensures { IsTrue result ↔ TextsFit control.now }
{
    if !is_text(&control.board) {
        return false;
    }
    if !is_text(&control.city) {
        return false;
    }
    if !is_text(&control.phone) {
        return false;
    }
    if !is_text(&control.sysop) {
        return false;
    }
    if !is_text(&control.serial) {
        return false;
    }
    if !is_text(&control.stamp) {
        return false;
    }
    if !is_text(&control.user) {
        return false;
    }
    is_text(&control.menu)
}

/// Whether the names of the files can be written.
fn files_fit(control: &Control) -> bool
    ensures { IsTrue result ↔ FilesFit control.now }
{
    if !is_text(&control.welcome) {
        return false;
    }
    if !is_text(&control.news) {
        return false;
    }
    is_text(&control.goodbye)
}

/// Whether a serial has no comma.
fn has_no_comma(serial: &[u8]) -> bool
    ensures { IsTrue result ↔ Lacks 44 serial.now }
{
    serial.iter().all(|b| *b != b',')
}

/// Whether a conference can be written.
fn conference_fits(conference: &(u16, Bytes)) -> bool
    ensures { IsTrue result ↔ ConferenceFits conference.now }
{
    let _number = conference.0;
    is_text(&conference.1)
}

/// Whether the conferences can be written.
fn conferences_fit(conferences: &Listed) -> bool
    ensures { IsTrue result ↔ ConferencesFit conferences.now }
{
    if conferences.len() < 1 {
        return false;
    }
    if conferences.len() > 65_536 {
        return false;
    }
    conferences
        .as_slice()
        .iter()
        .all(|conference| conference_fits(conference))
}

impl Control {
    ghost use Rattle.std.specs.Prelude.{◌↔◌, IsTrue};
    ghost use Rattle.qwk_control.specs.Written.{WritableControl};

    /// Whether there is a written form. There is one where all of these hold:
    ///
    /// - No text has CR or LF.
    /// - The serial has no comma.
    /// - The board id has 1 to 8 bytes from 21h to 7Eh.
    /// - The count is at most 999,999,999.
    /// - There are 1 to 65,536 conferences.
    ///
    /// For callers of the library; the program doesn't call it.
    pub fn writable(&self) -> bool
        ensures { IsTrue result ↔ WritableControl self.now }
    {
        if !texts_fit(self) {
            return false;
        }
        if !has_no_comma(self.serial.as_slice()) {
            return false;
        }
        if !is_id(self.bbsid.as_slice()) {
            return false;
        }
        if self.count > 999_999_999 {
            return false;
        }
        conferences_fit(&self.conferences) && files_fit(self)
    }
}
