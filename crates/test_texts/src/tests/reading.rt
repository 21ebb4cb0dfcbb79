//! Texts of messages with fields that the examples of the commands don't have.
mod scans;

use super::packets;
use byte_lists::Bytes;
use offline_reader::{list_folder, list_packet, show_message};
use qwk_blocks::{QwkMessage, QwkMessages};
use qwk_control::Control;
use std::alloc::{AllocError, Global};
use test_cases::{Miss, expect_cases, number_of, quoted};

/// Gives a message a control character in its sender's name and one in its line.
fn fill(alloc: Global, message: &mut QwkMessage) -> Result<(), AllocError> {
    packets::send(message, b"BOB\x7FRAY")?;
    message.lines.add(Bytes::from_slice(alloc, b"tab\there")?)
}

/// Adds such a message of this status and activity.
fn add_message(
    alloc: Global,
    messages: &mut QwkMessages,
    status: u8,
    activity: u8,
) -> Result<(), AllocError> {
    let mut message = packets::message(alloc, status);
    message.header.activity = activity;
    message.header.conference = 65535;
    fill(alloc, &mut message)?;
    messages.add(message)
}

/// The list of a packet to which such a message is added.
fn list_with(
    alloc: Global,
    messages: &mut QwkMessages,
    status: u8,
    activity: u8,
) -> Result<String, AllocError> {
    add_message(alloc, messages, status, activity)?;
    let text = list_packet(alloc, messages)?;
    quoted(alloc, text.as_slice())
}

fn list(alloc: Global, words: &[Bytes]) -> Result<String, Miss> {
    let [status, activity] = words else {
        return Err(Miss::Words);
    };
    let ([status], [activity]) = (status.as_slice(), activity.as_slice()) else {
        return Err(Miss::Words);
    };
    let mut messages = QwkMessages::new(alloc);
    Ok(list_with(alloc, &mut messages, *status, *activity)?)
}

/// The message in a place of a packet to which one is added, or why none is shown.
fn show_with(alloc: Global, messages: &mut QwkMessages, place: u32) -> Result<String, AllocError> {
    add_message(alloc, messages, b' ', 0xE1)?;
    match show_message(alloc, messages, place) {
        Ok(text) => quoted(alloc, text.as_slice()),
        Err(error) => format!(in alloc; "{error:?}"),
    }
}

fn show(alloc: Global, words: &[Bytes]) -> Result<String, Miss> {
    let [place] = words else {
        return Err(Miss::Words);
    };
    let place = number_of(place.as_slice())?;
    Ok(show_with(alloc, &mut QwkMessages::new(alloc), place)?)
}

/// The list of a folder without messages, whose packet says this of a board and a user.
fn list_named(
    alloc: Global,
    control: &mut Control,
    board: &[u8],
    user: &[u8],
) -> Result<String, AllocError> {
    packets::name(control, board, user)?;
    let text = list_folder(alloc, control, &QwkMessages::new(alloc))?;
    quoted(alloc, text.as_slice())
}

fn list_empty(alloc: Global, words: &[Bytes]) -> Result<String, Miss> {
    let [board, user] = words else {
        return Err(Miss::Words);
    };
    let mut control = packets::control(alloc);
    Ok(list_named(alloc, &mut control, board.as_slice(), user.as_slice())?)
}

/// What is found of a case, which begins with what it asks.
fn found(alloc: Global, words: &[Bytes]) -> Result<String, Miss> {
    let [asked, words @ ..] = words else {
        return Err(Miss::Words);
    };
    match asked.as_slice() {
        b"list" => list(alloc, words),
        b"show" => show(alloc, words),
        b"folder" => list_empty(alloc, words),
        _ => Err(Miss::Words),
    }
}

const CASES: &str = r#"
# A case is the status and the activity of a packet's one message, and what is found is the list of the packet.
list " " \xE1 => "1 65535/- public BOB?RAY > ALL:  [1]\n1 messages\n"
list - \0 => "1 65535/- public BOB?RAY > ALL:  [1]\n1 messages\n"
list + \xE1 => "1 65535/- private BOB?RAY > ALL:  [1]\n1 messages\n"
list * \xE1 => "1 65535/- private BOB?RAY > ALL:  [1]\n1 messages\n"
list ~ \xE1 => "1 65535/- comment BOB?RAY > ALL:  [1]\n1 messages\n"
list ` \xE1 => "1 65535/- comment BOB?RAY > ALL:  [1]\n1 messages\n"
list % \xE1 => "1 65535/- password BOB?RAY > ALL:  [1]\n1 messages\n"
list $ \xE1 => "1 65535/- password BOB?RAY > ALL:  [1]\n1 messages\n"
list + \xE2 => "1 65535/- killed BOB?RAY > ALL:  [1]\n1 messages\n"
# A case is a place in a packet of one message, and what is found is the message there.
show 1 => "From: BOB?RAY\nTo: ALL\nSubject: \nDate: 09-09-01 01:46\nConference: 65535\nNumber: -\nReference: -\n\ntab?here\n"
show 0 => NoMessage
show 2 => NoMessage
show 4294967295 => NoMessage
# A case is the name of a board and of a user, and what is found is the list of a folder without messages.
folder "Test\x01Board" "ANN LEE" => "board Test?Board\nuser ANN LEE\n0 messages\n"
"#;

#[test]
fn packets_are_listed_and_shown(rt: HostRuntime) -> Result<(), Miss> {
    expect_cases(rt.alloc(), CASES, found)
}
