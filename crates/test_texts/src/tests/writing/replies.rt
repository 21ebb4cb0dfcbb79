use super::{NOW, all_described, fill_control, no_replies, packets};
use byte_lists::Bytes;
use offline_writer::reply_to;
use qwk_blocks::{QwkMessage, QwkMessages};
use qwk_control::Control;
use rep_packet::Rep;
use std::alloc::{AllocError, Global};
use test_cases::{Miss, expect_cases, number_of};

/// What a user replies to, and with what.
#[derive(Drop)]
struct Desk {
    control: Control,
    messages: QwkMessages,
    rep: Rep,
}

/// One with empty packets.
fn empty_desk(alloc: Global) -> Desk {
    Desk {
        control: packets::control(alloc),
        messages: QwkMessages::new(alloc),
        rep: no_replies(alloc),
    }
}

/// Sends a message from Bob Ray, with values that a reply has otherwise.
fn fill(message: &mut QwkMessage, number: Option<u32>) -> Result<(), AllocError> {
    packets::send(message, b"BOB RAY")?;
    let header = &mut message.header;
    header.number = number;
    header.date = *b"01-01-70";
    header.time = *b"00:00";
    header.reference = Some(5);
    header.activity = 0xE2;
    header.logical = 9;
    header.tag = b'*';
    header.subject.add(b"Hello")
}

/// Adds such a message of this status, in conference 263.
fn add_message(
    alloc: Global,
    messages: &mut QwkMessages,
    status: u8,
    number: Option<u32>,
) -> Result<(), AllocError> {
    let mut message = packets::message(alloc, status);
    fill(&mut message, number)?;
    messages.add(message)
}

/// The packet with the reply to the message in a place, or why there is none.
fn replied(alloc: Global, desk: &mut Desk, place: u32, text: &[u8]) -> Result<String, AllocError> {
    let messages = &desk.messages;
    match reply_to(
        alloc,
        &desk.control,
        messages,
        place,
        text,
        &mut desk.rep,
        NOW,
    ) {
        Ok(()) => all_described(alloc, &desk.rep),
        Err(error) => format!(in alloc; "{error:?}"),
    }
}

/// Replies to the message of a case.
fn reply_on(alloc: Global, desk: &mut Desk, words: &[Bytes]) -> Result<String, Miss> {
    let [status, number, user, place, text] = words else {
        return Err(Miss::Words);
    };
    let status = status.as_slice().first().ok_or(Miss::Words)?;
    let number = number_of(number.as_slice()).ok();
    let place = number_of(place.as_slice())?;
    desk.rep.bbsid.add(b"TESTBBS")?;
    fill_control(alloc, &mut desk.control, user.as_slice())?;
    add_message(alloc, &mut desk.messages, *status, number)?;
    Ok(replied(alloc, desk, place, text.as_slice())?)
}

fn reply(alloc: Global, words: &[Bytes]) -> Result<String, Miss> {
    reply_on(alloc, &mut empty_desk(alloc), words)
}

/// A case is the status and the number of a packet's one message, its user, the place that is replied to, and a text. A
/// reply takes its fields from the message.
const CASES: &str = r#"
# Messages.
" " 7 "ANN LEE" 1 Thanks\n => 1 messages; " \xe1 " 09-09-01 01:46 "BOB RAY" "ANN LEE" "Hello" Some(263) Some(7) 263 1 1
+ 7 "ANN LEE" 1 Thanks\n => 1 messages; "+\xe1 " 09-09-01 01:46 "BOB RAY" "ANN LEE" "Hello" Some(263) Some(7) 263 1 1
* none "ANN LEE" 1 Thanks\n => 1 messages; "+\xe1 " 09-09-01 01:46 "BOB RAY" "ANN LEE" "Hello" Some(263) Some(0) 263 1 1
~ none "ANN LEE" 1 Thanks\n => 1 messages; " \xe1 " 09-09-01 01:46 "BOB RAY" "ANN LEE" "Hello" Some(263) Some(0) 263 1 1
" " 7 "ANN LEE" 1 One\r\n\nTwo => 1 messages; " \xe1 " 09-09-01 01:46 "BOB RAY" "ANN LEE" "Hello" Some(263) Some(7) 263 1 3
# Users whose names don't fit, and one without a name.
" " 7 ABCDEFGHIJKLMNOPQRSTUVWXYZ 1 "" => 1 messages; " \xe1 " 09-09-01 01:46 "BOB RAY" "ABCDEFGHIJKLMNOPQRSTUVWXY" "Hello" Some(263) Some(7) 263 1 0
" " 7 "ABCDEFGHIJKLMNOPQRSTUVW \0Z" 1 "" => 1 messages; " \xe1 " 09-09-01 01:46 "BOB RAY" "ABCDEFGHIJKLMNOPQRSTUVW" "Hello" Some(263) Some(7) 263 1 0
" " 7 "" 1 "" => 1 messages; " \xe1 " 09-09-01 01:46 "BOB RAY" "" "Hello" Some(263) Some(7) 263 1 0
# Places without a message, and texts that QWK can't hold: a text has at most 16,384 bytes as it is stored.
" " 7 "ANN LEE" 0 "" => NoMessage
" " 7 "ANN LEE" 2 \xE3 => NoMessage
" " 7 "ANN LEE" 1 One\nTwo\xE3\n => Text(1)
" " 7 "ANN LEE" 1 One\rTwo\n => Text(1)
" " 7 "ANN LEE" 1 One\r\r\n => Text(1)
" " 7 "ANN LEE" 1 One\r => Text(1)
" " 7 "ANN LEE" 1 x\{16383} => 1 messages; " \xe1 " 09-09-01 01:46 "BOB RAY" "ANN LEE" "Hello" Some(263) Some(7) 263 1 1
" " 7 "ANN LEE" 1 x\{16384} => Text(1)
"#;

#[test]
fn replies_are_written(rt: HostRuntime) -> Result<(), Miss> {
    expect_cases(rt.alloc(), CASES, reply)
}
