ghost use Rattle.std.specs.Prelude.{◌≡◌, ◌<◌, ◌≤◌, length, decimal, IfOk};
ghost use Rattle.slot_changes.specs.Msgids.{generated as generated_of, msgid_in};

use board_layout::StoredBoard;
use byte_lists::Bytes;
use itoa::Buffer;
use std::alloc::{AllocError, Global};
use text_fields::add_decimal;

/// A conference's number has at most 5 digits, and a message's at most 10.
const MOST_DIGITS: usize = 15;

/// The msgid that is generated for a message number in the conference of a number.
pub(crate) fn generated(
    alloc: Global,
    conference: u16,
    bbsid: &[u8],
    number: u32,
) -> Result<Bytes, AllocError>
    ensures { IfOk result (λ msgid. msgid ≡ generated_of conference bbsid.now number) }
{
    let mut msgid = Bytes::new(alloc);
    msgid.reserve(bbsid.len().saturating_add(MOST_DIGITS + 2))?;
    add_decimal(&mut msgid, u64::from(conference))?;
    msgid.add(b".")?;
    add_decimal(&mut msgid, u64::from(number))?;
    msgid.add(b".")?;
    msgid.add(bbsid)?;
    Ok(msgid)
}

/// How many decimal digits a number has.
fn digit_count(number: u64) -> u64
    ensures count { result ≡ length (decimal number) }
    ensures few { result ≤ 40 }
{
    let mut buffer = Buffer::new();
    buffer.format(number).len() as u64
}

/// How many bytes the msgid has that is generated for a message number in the conference of a number. It takes no
/// memory.
pub fn generated_len(conference: u16, bbsid: &[u8], number: u64) -> u64
    ensures { result ≡ length (generated_of conference bbsid.now number) }
{
    digit_count(u64::from(conference)) + digit_count(number) + bbsid.len() as u64 + 2
}

/// The msgid that is generated for a message number in a place: `CONFERENCE.NUMBER.BBSID`. The place is there.
///
/// The error comes where there is no memory.
pub fn msgid_of(
    alloc: Global,
    board: &StoredBoard,
    place: u8,
    number: u32,
) -> Result<Bytes, AllocError>
    requires { place < length board.now.conferences }
    ensures { IfOk result (λ msgid. msgid ≡ msgid_in place board.now number) }
{
    let conference = board.conference_of(place).number;
    let bbsid = board.ledger().setup.bbsid().as_slice();
    generated(alloc, conference, bbsid, number)
}
