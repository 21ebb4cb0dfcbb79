//! Each message of a board, held, deleted and gone, the msgids that it generates, and how many slots fit in a place.
ghost use Rattle.std.specs.Prelude.{false, IfOk, IsFalse};
ghost use Rattle.door_outside.specs.Disk.{silent};
ghost use Rattle.intent_journal.specs.Hosts.{IsSettled};
ghost use Rattle.cmd_board.specs.mail_board.Held.{RestsOn};
ghost use Rattle.memory_outside.specs.MemoryHost.{disk_of};

use byte_lists::Bytes;
use cmd_board::{Board, Loaded, ReadError};
use door_outside::{DiskFault, FileId, Host, VoiceFault};
use jam_records::{Message, Slot, Slots};
use memory_outside::{ImageChoice, MemoryHost};
use std::alloc::{AllocError, Global};
use test_runs::{Miss, no_faults, played};

/// A host on what the last run has synced.
#[tactic(auto, using(intent_journal::proofs::Hosts::at_rest_is_settled))]
fn synced(alloc: Global, last: &MemoryHost) -> Result<MemoryHost, AllocError>
    ensures { IfOk result (λ host. IsSettled (disk_of host)) }
{
    last.after_crash(alloc, ImageChoice::Synced, no_faults(alloc))
}

/// A host that tells nothing, of which each read gives the front of this text.
#[derive(Drop)]
struct TextHost {
    text: &'static [u8],
}

impl Host for TextHost {
    ghost tells = { false };

    ghost disk = { λ _. silent };

    ghost disk_faults = { λ _. 0 };

    ghost voice_faults = { λ _. 0 };

    fn length(&mut self, _file: FileId) -> Result<u32, DiskFault> {
        Ok(0)
    }

    fn read_at(&mut self, _file: FileId, _at: u32, buf: &mut [u8]) -> Result<usize, DiskFault> {
        let count = buf.len().min(self.text.len());
        buf[..count].copy_from_slice(&self.text[..count]);
        Ok(count)
    }

    fn write_at(&mut self, _file: FileId, _at: u32, _bytes: &[u8]) -> Result<(), DiskFault> {
        Ok(())
    }

    fn cut(&mut self, _file: FileId, _len: u32) -> Result<(), DiskFault> {
        Ok(())
    }

    fn sync(&mut self, _file: FileId) -> Result<(), DiskFault> {
        Ok(())
    }

    fn say(&mut self, _bytes: &[u8]) -> Result<(), VoiceFault> {
        Ok(())
    }
}

/// Adds a text behind a mark.
fn add_text(line: &mut String, mark: &str, text: &Bytes) -> Result<(), AllocError> {
    line.push_str(mark)?;
    line.write(text.as_slice().escape_ascii())
}

/// Adds the texts of a message.
fn add_texts(line: &mut String, message: &Message) -> Result<(), AllocError> {
    add_text(line, " ", &message.from)?;
    add_text(line, " > ", &message.to)?;
    add_text(line, ": ", &message.subject)?;
    add_text(line, " (", &message.msgid)?;
    add_text(line, ") ", &message.body)
}

/// A message as a text: whether it is local, private, read and deleted, and its texts.
fn described(alloc: Global, message: &Message) -> Result<String, AllocError> {
    let (local, private) = (message.local, message.private);
    let (seen, deleted) = (message.seen, message.deleted);
    let mut line = format!(in alloc; "[{local}, {private}, {seen}, {deleted}]")?;
    add_texts(&mut line, message)?;
    Ok(line)
}

/// The message that was found, or that there is none, or why none is read.
fn shown(alloc: Global, found: &Result<Option<Message>, ReadError>) -> Result<String, AllocError> {
    match found {
        Ok(Some(message)) => described(alloc, message),
        Ok(None) => String::from_str(alloc, "none"),
        Err(error) => format!(in alloc; "{error:?}"),
    }
}

/// The msgid that a board generates for a number in a place, and whether a message there has it; or that there is no such
/// place.
fn generated(alloc: Global, board: &Board, place: u8, number: u32) -> Result<String, AllocError> {
    if usize::from(place) >= board.setup().fields().conferences.len() {
        return String::from_str(alloc, "nowhere");
    }
    let msgid = board.msgid_of(alloc, place, number)?;
    let held = board.has_msgid(place, msgid.as_slice());
    let state = if held { "held" } else { "free" };
    format!(in alloc; "{} {state}", msgid.as_slice().escape_ascii())
}

/// The message of a number in a place.
fn read_message(
    alloc: Global,
    board: &Board,
    host: &mut MemoryHost,
    place: u8,
    number: u32,
) -> Result<String, AllocError>
    requires sure { IsFalse board.now.doubtful }
    requires rests { RestsOn board.now.board (disk_of host.old) }
{
    let found = board.message(alloc, host, place, number);
    shown(alloc, &found)
}

/// The msgid that a board generates for a number in a place, whether that is held, and the message.
fn msgid_and_message(
    alloc: Global,
    board: &Board,
    host: &mut MemoryHost,
    place: u8,
    number: u32,
) -> Result<String, AllocError>
    requires sure { IsFalse board.now.doubtful }
    requires rests { RestsOn board.now.board (disk_of host.old) }
{
    let message = read_message(alloc, board, host, place, number)?;
    let msgid = generated(alloc, board, place, number)?;
    format!(in alloc; "{msgid} {message}")
}

/// The message of a number in a place, where another host gives its body.
fn message_elsewhere(
    alloc: Global,
    board: &Board,
    place: u8,
    number: u32,
    text: &'static str,
) -> Result<String, AllocError>
    requires { IsFalse board.now.doubtful }
{
    let mut host = TextHost {
        text: text.as_bytes(),
    };
    let found = board.message(alloc, &mut host, place, number);
    shown(alloc, &found)
}

/// Adds so many slots that are Gone.
fn add_gone(slots: &mut Slots, count: u32) -> Result<(), AllocError> {
    for _ in 0..count {
        slots.add(Slot::Gone)?;
    }
    Ok(())
}

/// Whether a place may get so many slots that are Gone.
fn gone_fit(alloc: Global, board: &Board, place: u8, count: u32) -> Result<String, AllocError> {
    let mut slots = Slots::new(alloc);
    add_gone(&mut slots, count)?;
    let fits = board.fits_slots(place, &slots);
    String::from_str(alloc, if fits { "fits" } else { "refused" })
}

/// What is asked of a board: a verb, a place, a number, and a text that another host gives.
type Question = (&'static str, u8, u32, &'static str);

/// The question that a text is.
fn question_of(text: &'static str) -> Option<Question> {
    let (verb, rest) = text.split_once(' ')?;
    let (place, rest) = rest.split_once(' ')?;
    let (number, rest) = rest.split_once(' ').unwrap_or((rest, ""));
    Some((verb, place.parse().ok()?, number.parse().ok()?, rest))
}

/// What a board answers.
fn answer(
    alloc: Global,
    board: &Board,
    host: &mut MemoryHost,
    question: Question,
) -> Result<String, AllocError>
    requires sure { IsFalse board.now.doubtful }
    requires rests { RestsOn board.now.board (disk_of host.old) }
{
    let (verb, place, number, text) = question;
    match verb {
        "message" => msgid_and_message(alloc, board, host, place, number),
        "elsewhere" => message_elsewhere(alloc, board, place, number, text),
        "slots" => gone_fit(alloc, board, place, number),
        _ => String::from_str(alloc, "unasked"),
    }
}

/// What the board of a host answers.
fn answer_of(alloc: Global, host: &mut MemoryHost, question: Question) -> Result<String, AllocError>
    requires { IsSettled (disk_of host.old) }
{
    match Board::load(alloc, host) {
        Ok(Loaded::Ready(board)) => answer(alloc, &board, host, question),
        Ok(Loaded::NotMade) => String::from_str(alloc, "there is no board"),
        Err(_) => String::from_str(alloc, "the board isn't read"),
    }
}

/// What the board that the last run has synced answers.
fn answer_behind(
    alloc: Global,
    last: &MemoryHost,
    question: Question,
) -> Result<String, AllocError> {
    let mut host = synced(alloc, last)?;
    answer_of(alloc, &mut host, question)
}

/// Looks whether an answer is the one of a row.
fn expect_answer(alloc: Global, row: &str, found: &str, wanted: &str) -> Result<(), Miss> {
    if found != wanted {
        return Err(Miss::said(alloc, row, found.as_bytes(), wanted)?);
    }
    Ok(())
}

/// Looks at a row of a table, a question and its answer, on the board that was synced.
fn expect_row(alloc: Global, last: &MemoryHost, row: &'static str) -> Result<(), Miss> {
    let (asked, wanted) = row.split_once(" = ").ok_or("a row has no answer")?;
    let question = question_of(asked).ok_or("a row asks nothing")?;
    let found = answer_behind(alloc, last, question)?;
    expect_answer(alloc, row, found.as_str(), wanted)
}

/// Looks at each row of a table on the board that was synced.
fn expect_rows(alloc: Global, last: &MemoryHost, rows: &'static str) -> Result<(), Miss> {
    for row in rows.lines() {
        expect_row(alloc, last, row)?;
    }
    Ok(())
}

/// Looks at each row on the board that a transcript leaves.
fn expect_rows_after(alloc: Global, transcript: &str, rows: &'static str) -> Result<(), Miss> {
    let stage = played(alloc, transcript)?;
    expect_rows(alloc, &stage.host, rows)
}

/// The first conference has three messages, of which the second is deleted, and a slot behind them whose message is
/// gone. The net conference has a letter, which Ann has read. The last has no message.
const BOARD: &str = r#"
* board B
* put own From: Bob Ray\nTo: All\nSubject: Own\nMsgid: mine\nReply: 0.1.TESTBBS\n\nA\n\nB\n.\n
* put net From: Bob Ray\nTo: Ann Lee\n\nHi\n.\n
> import 0 two
imported 2 into 0
> import 0 own
imported 1 into 0
> import 1 net
imported 1 into 1
> kill 0 2
killed 0 2
> export "Ann Lee" 10 out
packet 1: 3 messages
> ack "Ann Lee" 1
acknowledged 1
* damage 4 longer 8 255
> check
board TESTBBS
0 GENERAL: 4 slots, 2 live
1 NETMAIL: 1 slots, 1 live
7 NEWS: 0 slots, 0 live
4 users, 0 uploads, 4271 bytes
"#;

/// Rows of three kinds. A row `message` has the message of a place and number, with the msgid that the board generates.
/// A row `elsewhere` has the same message where another host gives what stands behind the number for each file. A row
/// `slots` says whether so many slots that are Gone may stand in a place instead of those that do. The body of message
/// 1 of place 0 has 11 bytes, and that of message 3 has 5. Of what the other host gives, no more is kept.
const ROWS: &str = "message 0 0 = 0.0.TESTBBS free none
message 0 1 = 0.1.TESTBBS held [true, false, false, false] Bob Ray > All: Hello (0.1.TESTBBS) First line\\r
message 0 2 = 0.2.TESTBBS held [true, false, false, true] Bob Ray > All: Hello (0.2.TESTBBS) First line\\r
message 0 3 = 0.3.TESTBBS free [true, false, false, false] Bob Ray > All: Own (mine) A\\r\\rB\\r
message 0 4 = 0.4.TESTBBS free none
message 0 5 = 0.5.TESTBBS free none
message 0 4294967295 = 0.4294967295.TESTBBS free none
message 1 0 = 1.0.TESTBBS free none
message 1 1 = 1.1.TESTBBS held [true, true, true, false] Bob Ray > Ann Lee:  (1.1.TESTBBS) Hi\\r
message 1 9999 = 1.9999.TESTBBS free none
message 2 1 = 7.1.TESTBBS free none
message 2 4294967295 = 7.4294967295.TESTBBS free none
message 3 1 = nowhere none
message 255 1 = nowhere none
elsewhere 0 1 Other text\r = [true, false, false, false] Bob Ray > All: Hello (0.1.TESTBBS) Other text\\r
elsewhere 0 3 C\rDE\r = [true, false, false, false] Bob Ray > All: Own (mine) C\\rDE\\r
elsewhere 0 1 Other text = Damaged(Damage { file: 3, item: 1, rule: Short })
elsewhere 0 1 Other text? = Damaged(Damage { file: 3, item: 1, rule: Line })
elsewhere 0 3 Other text\r = Damaged(Damage { file: 3, item: 3, rule: Line })
elsewhere 0 4 = none
slots 0 4 = fits
slots 0 3 = refused
slots 0 5 = refused
slots 2 0 = fits
slots 3 0 = refused
";

/// A conference of 9,999 messages, of which the last but one is deleted.
const FULL: &str = r#"
* board B
* add most 9999 From: Bob Ray\nTo: All\nSubject: Hello\n\nFirst line\n.\n
> import 7 most
imported 9999 into 7
> kill 7 9998
killed 7 9998
"#;

const LAST_ROWS: &str =
    r#"message 2 9998 = 7.9998.TESTBBS held [true, false, false, true] Bob Ray > All: Hello (7.9998.TESTBBS) First line\r
message 2 9999 = 7.9999.TESTBBS held [true, false, false, false] Bob Ray > All: Hello (7.9999.TESTBBS) First line\r
message 2 10000 = 7.10000.TESTBBS free none
slots 2 9999 = fits
slots 2 9998 = refused
"#;

#[test]
fn each_message_of_a_board_is_given(rt: HostRuntime) -> Result<(), Miss> {
    expect_rows_after(rt.alloc(), BOARD, ROWS)?;
    expect_rows_after(rt.alloc(), FULL, LAST_ROWS)
}
