ghost use Rattle.std.specs.Prelude.{◌≡◌, ◌++◌, IfOk, OnOk};
ghost use Rattle.fts_packet.specs.Lines.{has_tag as has_tag_of, behind_tag as behind_tag_of, is_kludge as is_kludge_of, body_line, body_of_lines as body_lines_of, msgid_of, replyid_of};
ghost use Rattle.fts_packet.specs.Draft.{is_net_letter as is_netmail_of, tossed_destination as destination_in, tossed_draft as draft_in};

use crate::date::read_date;
use crate::packet::FtsMessage;
use crate::value::{id_behind, tag_of};
use byte_lists::Bytes;
use jam_records::Message;
use std::alloc::{AllocError, Global};

/// Whether a text has a tag.
fn has_tag(lines: &[Bytes]) -> bool
    ensures { result ≡ has_tag_of lines.now }
{
    tag_of(lines).is_some()
}

/// Whether a message is net mail, which has no tag.
fn is_netmail(message: &FtsMessage) -> bool
    ensures { result ≡ is_netmail_of message.now }
{
    !has_tag(message.lines.as_slice())
}

/// The lines behind the tag, where there is one.
fn behind_tag(lines: &[Bytes]) -> &[Bytes]
    ensures { result.now ≡ behind_tag_of lines.now }
{
    match (has_tag(lines), lines) {
        (true, [_, more @ ..]) => more,
        _ => lines,
    }
}

/// Whether a line is a kludge line, which begins with 01h.
fn is_kludge(line: &[u8]) -> bool
    ensures { result ≡ is_kludge_of line.now }
{
    match line {
        [] => false,
        [first, ..] => *first == 1,
    }
}

/// Adds a line to a body, where it isn't a kludge line.
fn add_line(body: &mut Bytes, line: &[u8]) -> Result<(), AllocError>
    ensures { OnOk result (body.new ≡ body.old ++ body_line line.now) }
{
    if is_kludge(line) {
        return Ok(());
    }
    body.add(line)?;
    body.add(b"\r")
}

/// The body of lines behind the tag.
fn body_of_lines(alloc: Global, lines: &[Bytes]) -> Result<Bytes, AllocError>
    ensures { IfOk result (λ body. body ≡ body_lines_of lines.now) }
{
    let mut body = Bytes::new(alloc);
    for line in lines {
        add_line(&mut body, line.as_slice())?;
    }
    Ok(body)
}

/// The msgid and the replyid that the lines give.
fn ids_of(alloc: Global, lines: &[Bytes]) -> Result<(Bytes, Bytes), AllocError>
    ensures msgid { IfOk result (λ ids. ids.0 ≡ msgid_of lines.now) }
    ensures replyid { IfOk result (λ ids. ids.1 ≡ replyid_of lines.now) }
{
    let msgid = Bytes::from_slice(alloc, id_behind(b"\x01MSGID: ", lines))?;
    let replyid = Bytes::from_slice(alloc, id_behind(b"\x01REPLY: ", lines))?;
    Ok((msgid, replyid))
}

/// The address that the draft goes to: nothing but for net mail.
fn destination_of(alloc: Global, message: &FtsMessage) -> Result<Bytes, AllocError>
    ensures { IfOk result (λ text. text ≡ destination_in message.now) }
{
    if is_netmail(message) {
        message.destination.copy(alloc)
    } else {
        Ok(Bytes::new(alloc))
    }
}

/// The draft of a message that is tossed at this moment.
#[tactic(auto, unfolding(crate::specs::Draft::tossed_draft))]
pub fn draft_of(alloc: Global, message: &FtsMessage, now: u32) -> Result<Message, AllocError>
    ensures { IfOk result (λ draft. draft ≡ draft_in message.now now) }
{
    let lines = message.lines.as_slice();
    let (msgid, replyid) = ids_of(alloc, lines)?;
    Ok(Message {
        from: message.from.copy(alloc)?,
        to: message.to.copy(alloc)?,
        subject: message.subject.copy(alloc)?,
        msgid,
        replyid,
        origin: message.origin.copy(alloc)?,
        destination: destination_of(alloc, message)?,
        body: body_of_lines(alloc, behind_tag(lines))?,
        written: read_date(&message.date).unwrap_or(now),
        received: 0,
        processed: now,
        local: false,
        private: is_netmail(message),
        seen: false,
        deleted: false,
    })
}
