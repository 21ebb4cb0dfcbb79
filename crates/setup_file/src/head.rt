ghost use Rattle.std.specs.Prelude.{◌≡◌, Some, ℕ, List, [], length, slice_get, IfOk, MatchResult};
ghost use Rattle.std.specs.Str.Lines.{lines};
ghost use Rattle.setup_file.specs.Words.{value_behind};
ghost use Rattle.setup_file.specs.Rules.{key_text, keys};
ghost use Rattle.setup_file.specs.Fault.{LinesFault};
ghost use Rattle.setup_file.specs.State.{IsNumbered, Kept, OneMore, HeadTaken, SetupFaultOrMemory};

use crate::error::{SetupError, SetupRule};
use crate::key::Key;
use crate::unread::{breaks, past_skipped};
use text_fields::Unread;

/// The values of the first six lines.
#[derive(Clone, Copy)]
pub struct Head<'a> {
    pub board: &'a [u8],
    pub city: &'a [u8],
    pub phone: &'a [u8],
    pub sysop: &'a [u8],
    pub bbsid: &'a [u8],
    pub serial: &'a [u8],
}

/// The value of a key's line, which is the next that counts, and what stands behind it.
fn value_of<'a>(key: Key, start: Unread<'a>) -> Result<(&'a [u8], Unread<'a>), SetupError>
    requires { IsNumbered (lines start.text.now) start.line }
    ensures numbered { IfOk result (λ found. IsNumbered (lines found.1.text.now) found.1.line) }
    ensures value { (all kept : List (List ℕ)) → slice_get keys (length kept) ≡ Some key
        → Kept all (lines start.entry.text.now) start.entry.line kept
        → MatchResult result
        (λ found. OneMore all kept (lines found.1.text.now) found.1.line (λ line. found.0.now ≡ value_behind (key_text key) line))
        (SetupFaultOrMemory (LinesFault all)) }
{
    let here = past_skipped(start);
    let Some((line, after)) = here.next() else {
        return Err(breaks(here, SetupRule::Missing));
    };
    match key.value_of(line) {
        Ok(value) => Ok((value, after)),
        Err(rule) => Err(breaks(here, rule)),
    }
}

/// The values of the first six lines that count, and what stands behind them.
pub fn head_of<'a>(start: Unread<'a>) -> Result<(Head<'a>, Unread<'a>), SetupError>
    requires { IsNumbered (lines start.text.now) start.line }
    ensures numbered { IfOk result (λ found. IsNumbered (lines found.1.text.now) found.1.line) }
    ensures head { (all : List (List ℕ)) → Kept all (lines start.entry.text.now) start.entry.line []
        → MatchResult result
        (λ found. HeadTaken all found.0 (lines found.1.text.now) found.1.line)
        (SetupFaultOrMemory (LinesFault all)) }
{
    let (board, behind_board) = value_of(Key::Board, start)?;
    let (city, behind_city) = value_of(Key::City, behind_board)?;
    let (phone, behind_phone) = value_of(Key::Phone, behind_city)?;
    let (sysop, behind_sysop) = value_of(Key::Sysop, behind_phone)?;
    let (bbsid, behind_bbsid) = value_of(Key::Bbsid, behind_sysop)?;
    let (serial, behind_serial) = value_of(Key::Serial, behind_bbsid)?;
    let head = Head {
        board,
        city,
        phone,
        sysop,
        bbsid,
        serial,
    };
    Ok((head, behind_serial))
}
