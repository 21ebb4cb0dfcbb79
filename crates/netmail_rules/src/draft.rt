ghost use Rattle.std.specs.Prelude.{◌≡◌, ◌++◌, IfOk, OnOk};
ghost use Rattle.std.specs.Option.{ForSome};
ghost use Rattle.netmail_rules.specs.AddressLine.{IsAddressLine};
ghost use Rattle.netmail_rules.specs.Draft.{is_netmail as is_netmail_of, first_line as first_line_of, netmail_line as netmail_line_of, recipient_of, destination_of, kept_lines as kept_lines_of, kept_line, kept_body as kept_body_of, draft_of as draft_in};

use crate::address::stored_address;
use crate::net_line::{NetLine, address_line};
use crate::status::{is_comment, is_private};
use crate::view::View;
use byte_lists::Bytes;
use jam_records::{Kind, Message};
use qwk_blocks::QwkMessage;
use qwk_moments::read_moment;
use std::alloc::{AllocError, Global};
use text_fields::split_at_byte;

/// Whether the message goes to a net conference.
pub(crate) fn is_netmail(view: &View) -> bool
    ensures { result ≡ is_netmail_of view.now }
{
    match &view.conference {
        Some(conference) => matches!(conference.kind, Kind::Net),
        None => false,
    }
}

/// The first line of the text, empty where there is none.
fn first_line(message: &QwkMessage) -> &[u8]
    ensures { result.now ≡ first_line_of message.now }
{
    match message.lines.get(0) {
        Some(line) => line.as_slice(),
        None => b"",
    }
}

/// What the address line of net mail names.
pub(crate) fn named(view: &View, message: &QwkMessage) -> Option<NetLine>
    ensures value { result ≡ netmail_line_of view.now message.now }
    ensures line { ForSome result (IsAddressLine (first_line_of message.now)) }
{
    if !is_netmail(view) {
        return None;
    }
    address_line(first_line(message))
}

/// The name that the draft goes to.
fn recipient<'a>(view: &'a View, message: &'a QwkMessage, named: Option<NetLine>) -> &'a [u8]
    requires { ForSome named (IsAddressLine (first_line_of message.now)) }
    ensures { result.now ≡ recipient_of view.now message.now named }
{
    match named {
        Some(found) => found.name(first_line(message)),
        None if is_comment(message.header.status) => view.sysop.as_slice(),
        None => message.header.to.as_slice(),
    }
}

/// The address that the draft goes to, or nothing.
fn destination(alloc: Global, named: Option<NetLine>) -> Result<Bytes, AllocError>
    ensures { IfOk result (λ text. text ≡ destination_of named) }
{
    match named {
        Some(found) => stored_address(alloc, found.address),
        None => Ok(Bytes::new(alloc)),
    }
}

/// The lines without the address line.
fn kept_lines(named: Option<NetLine>, lines: &[Bytes]) -> &[Bytes]
    ensures { result.now ≡ kept_lines_of named lines.now }
{
    match (named, lines) {
        (Some(_), [_, rest @ ..]) => rest,
        _ => lines,
    }
}

/// Adds a line as it is kept, in room for it: a space for each carriage return, and one carriage return at the end.
fn add_line(body: &mut Bytes, line: &[u8]) -> Result<(), AllocError>
    ensures { OnOk result (body.new ≡ body.old ++ kept_line line.now) }
{
    body.reserve(line.len().saturating_add(1))?;
    let mut left = line;
    while let Some((front, rest)) = split_at_byte(left, b'\r') {
        body.add(front)?;
        body.add(b" ")?;
        left = rest;
    }
    body.add(left)?;
    body.add(b"\r")
}

/// The body of these lines.
fn kept_body(alloc: Global, lines: &[Bytes]) -> Result<Bytes, AllocError>
    ensures { IfOk result (λ body. body ≡ kept_body_of lines.now) }
{
    let mut body = Bytes::new(alloc);
    for line in lines {
        add_line(&mut body, line.as_slice())?;
    }
    Ok(body)
}

/// The draft of a message, whose address line names this.
#[tactic(auto, unfolding(crate::specs::Draft::draft_of))]
pub(crate) fn draft_of(
    alloc: Global,
    view: &View,
    message: &QwkMessage,
    named: Option<NetLine>,
    now: u32,
) -> Result<Message, AllocError>
    requires value { named ≡ netmail_line_of view.now message.now }
    requires line { ForSome named (IsAddressLine (first_line_of message.now)) }
    ensures { IfOk result (λ draft. draft ≡ draft_in view.now message.now now) }
{
    let header = &message.header;
    let lines = kept_lines(named, message.lines.as_slice());
    Ok(Message {
        from: view.user.copy(alloc)?,
        to: Bytes::from_slice(alloc, recipient(view, message, named))?,
        subject: header.subject.copy(alloc)?,
        msgid: Bytes::new(alloc),
        replyid: view.reply.copy(alloc)?,
        origin: Bytes::new(alloc),
        destination: destination(alloc, named)?,
        body: kept_body(alloc, lines)?,
        written: read_moment(&header.date, &header.time).unwrap_or(now),
        received: 0,
        processed: now,
        local: true,
        private: is_netmail(view) || is_private(header.status) || is_comment(header.status),
        seen: false,
        deleted: false,
    })
}
