ghost use Rattle.std.specs.Prelude.{◌≡◌, ◌++◌, OnOk, IfOk};
ghost use Rattle.offline_reader.specs.Listing.{kind, place_text, kind_text, names, count_text, plain_line, listing_line, listing};

use crate::print::{add_number, add_printed};
use byte_lists::Bytes;
use long_names::{plain, reads_as_is};
use qwk_blocks::{Header, QwkMessage, QwkMessages};
use std::alloc::{AllocError, Global};
use text_fields::add_decimal;

/// The activity byte of a killed message.
const KILLED: u8 = 0xE2;

/// What kind of message it is.
#[tactic(auto, unfolding(crate::specs::Listing::kind))]
fn kind_of(header: &Header) -> &'static [u8]
    ensures { result.now ≡ kind header.now }
{
    if header.activity == KILLED {
        return b"killed";
    }
    match header.status {
        b'+' | b'*' => b"private",
        b'~' | b'`' => b"comment",
        b'%' | b'^' | b'!' | b'#' | b'$' => b"password",
        _ => b"public",
    }
}

/// Adds the place, the conference and the number of a message.
fn add_place(page: &mut Bytes, place: u64, header: &Header) -> Result<(), AllocError>
    ensures { OnOk result (page.new ≡ page.old ++ place_text place header.now) }
{
    add_decimal(page, place)?;
    page.add(b" ")?;
    add_decimal(page, u64::from(header.conference))?;
    page.add(b"/")?;
    add_number(page, header.number)
}

/// Adds who writes to whom about what.
fn add_names(page: &mut Bytes, header: &Header) -> Result<(), AllocError>
    ensures { OnOk result (page.new ≡ page.old ++ names header.now) }
{
    add_printed(page, header.from.as_slice())?;
    page.add(b" > ")?;
    add_printed(page, header.to.as_slice())?;
    page.add(b": ")?;
    add_printed(page, header.subject.as_slice())
}

/// Adds the kind of a message.
fn add_kind(page: &mut Bytes, header: &Header) -> Result<(), AllocError>
    ensures { OnOk result (page.new ≡ page.old ++ kind_text header.now) }
{
    page.add(b" ")?;
    page.add(kind_of(header))?;
    page.add(b" ")
}

/// Adds the count of lines, and ends the line.
fn add_count(page: &mut Bytes, lines: u64) -> Result<(), AllocError>
    ensures { OnOk result (page.new ≡ page.old ++ count_text lines) }
{
    page.add(b" [")?;
    add_decimal(page, lines)?;
    page.add(b"]\n")
}

/// Adds the line of a message as it is read.
fn add_plain_line(page: &mut Bytes, place: u64, message: &QwkMessage) -> Result<(), AllocError>
    ensures { OnOk result (page.new ≡ page.old ++ plain_line place message.now) }
{
    add_place(page, place, &message.header)?;
    add_kind(page, &message.header)?;
    add_names(page, &message.header)?;
    add_count(page, message.lines.len() as u64)
}

/// Adds the line of a message.
#[tactic(auto, unfolding(crate::specs::Listing::listing_line))]
fn add_line(
    alloc: Global,
    page: &mut Bytes,
    place: u64,
    message: &QwkMessage,
) -> Result<(), AllocError>
    ensures { OnOk result (page.new ≡ page.old ++ listing_line (place, message.now)) }
{
    if reads_as_is(message) {
        return add_plain_line(page, place, message);
    }
    let read = plain(alloc, message)?;
    add_plain_line(page, place, &read)
}

/// Adds the listing of messages.
pub fn add_listing(
    alloc: Global,
    page: &mut Bytes,
    messages: &QwkMessages,
) -> Result<(), AllocError>
    ensures { OnOk result (page.new ≡ page.old ++ listing messages.now) }
{
    let mut place = 1u64;
    for message in messages.as_slice() {
        add_line(alloc, page, place, message)?;
        place += 1;
    }
    add_decimal(page, messages.len() as u64)?;
    page.add(b" messages\n")
}

/// The listing of a packet: a line `PLACE CONFERENCE/NUMBER KIND FROM > TO: SUBJECT [LINES]` for each
/// message, where places count from 1, and then `N messages`. Long names and subjects are whole, and the
/// lines that give them don't count.
///
/// The error comes where there is no memory.
pub fn list_packet(alloc: Global, messages: &QwkMessages) -> Result<Bytes, AllocError>
    ensures { IfOk result (λ text. text ≡ listing messages.now) }
{
    let mut page = Bytes::new(alloc);
    add_listing(alloc, &mut page, messages)?;
    Ok(page)
}
