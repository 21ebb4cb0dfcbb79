//! The lines that say what became of messages.
ghost use Rattle.std.specs.Prelude.{◌≡◌, ◌-◌, ◌++◌, IfOk, OnOk};
ghost use Rattle.mail_intake.specs.Lines.{counts_line, posted_line, refused_line};

use byte_lists::Bytes;
use std::alloc::AllocError;
use text_fields::add_decimal;

/// Adds the line of a message, in a place from 1, that is posted in the conference of a number, under a message number
/// from 1. Where there is no memory, the text is no longer of use.
pub fn add_posted(
    text: &mut Bytes,
    place: u32,
    conference: u32,
    number: u32,
) -> Result<(), AllocError>
    ensures { OnOk result (text.new ≡ text.old ++ posted_line place conference number) }
{
    add_decimal(text, u64::from(place))?;
    text.add(b" posted ")?;
    add_decimal(text, u64::from(conference))?;
    text.add(b" ")?;
    add_decimal(text, u64::from(number))?;
    text.add(b"\n")
}

/// Adds the line of a message, in a place from 1, that is refused by the rule of a word. Where there is no memory, the
/// text is no longer of use.
pub fn add_refused(text: &mut Bytes, place: u32, word: &[u8]) -> Result<(), AllocError>
    ensures { OnOk result (text.new ≡ text.old ++ refused_line place word.now) }
{
    add_decimal(text, u64::from(place))?;
    text.add(b" refused ")?;
    text.add(word)?;
    text.add(b"\n")
}

/// Adds the line of how many messages were posted and how many refused. Where there is no memory, the text is no longer
/// of use.
fn add_counts(text: &mut Bytes, posted: u64, refused: u64) -> Result<(), AllocError>
    ensures { OnOk result (text.new ≡ text.old ++ counts_line posted refused) }
{
    text.add(b"posted ")?;
    add_decimal(text, posted)?;
    text.add(b" refused ")?;
    add_decimal(text, refused)?;
    text.add(b"\n")
}

/// The lines of messages, of which so many were posted, and behind them the line of how many of the count were posted and
/// how many refused.
///
/// The error comes where there is no memory.
pub fn with_counts(lines: Bytes, posted: usize, count: usize) -> Result<Bytes, AllocError>
    ensures { IfOk result (λ text. text ≡ lines ++ counts_line posted (count - posted)) }
{
    let mut text = lines;
    add_counts(
        &mut text,
        posted as u64,
        count.saturating_sub(posted) as u64,
    )?;
    Ok(text)
}
