ghost use Rattle.std.specs.Prelude.{◌≡◌, ◌++◌, IfOk, OnOk};
ghost use Rattle.cmd_board.specs.Check.{report as report_of, board_line, conference_label, checked_lines, board_counts, slots_text};

use board_ledger::Conference;
use byte_lists::Bytes;
use mail_board::Board;
use std::alloc::{AllocError, Global};
use text_fields::add_decimal;

/// Adds the line of the board's id.
fn add_board(text: &mut Bytes, board: &Board) -> Result<(), AllocError>
    ensures { OnOk result (text.new ≡ text.old ++ board_line board.now.board) }
{
    text.add(b"board ")?;
    text.add(board.setup().bbsid().as_slice())?;
    text.add(b"\n")
}

/// Adds the number and the name of a conference.
fn add_label(text: &mut Bytes, conference: &Conference) -> Result<(), AllocError>
    ensures { OnOk result (text.new ≡ text.old ++ conference_label conference.now) }
{
    add_decimal(text, u64::from(conference.number))?;
    text.add(b" ")?;
    text.add(conference.name.as_slice())?;
    text.add(b": ")
}

/// Adds how many slots there are, and how many live messages.
fn add_tally(text: &mut Bytes, slots: u32, live: u32) -> Result<(), AllocError>
    ensures { OnOk result (text.new ≡ text.old ++ slots_text slots live) }
{
    add_decimal(text, u64::from(slots))?;
    text.add(b" slots, ")?;
    add_decimal(text, u64::from(live))?;
    text.add(b" live\n")
}

/// Adds the lines of the conferences, in order.
fn add_conferences(text: &mut Bytes, board: &Board) -> Result<(), AllocError>
    ensures { OnOk result (text.new ≡ text.old ++ checked_lines board.now.board.ledger.setup.conferences board.now.board.conferences) }
{
    let conferences = board.setup().fields().conferences.as_slice();
    for (place, conference) in conferences.iter().enumerate() {
        let place = place as u8;
        add_label(text, conference)?;
        add_tally(text, board.slot_count(place), board.live_count(place))?;
    }
    Ok(())
}

/// Adds the line of the counts of users, upload records and bytes.
fn add_counts(text: &mut Bytes, board: &Board) -> Result<(), AllocError>
    ensures { OnOk result (text.new ≡ text.old ++ board_counts board.now.board) }
{
    add_decimal(text, u64::from(board.user_count()))?;
    text.add(b" users, ")?;
    add_decimal(text, u64::from(board.upload_count()))?;
    text.add(b" uploads, ")?;
    add_decimal(text, board.size())?;
    text.add(b" bytes\n")
}

/// What a board has: its id, its conferences, and the counts of users, upload records and bytes.
pub fn report(alloc: Global, board: &Board) -> Result<Bytes, AllocError>
    ensures { IfOk result (λ text. text ≡ report_of board.now.board) }
{
    let mut text = Bytes::new(alloc);
    add_board(&mut text, board)?;
    add_conferences(&mut text, board)?;
    add_counts(&mut text, board)?;
    Ok(text)
}
