// Whether a message is one that a conference may hold.
ghost use Rattle.std.specs.Prelude.{◌≡◌, ◌↔◌, All, IsTrue, nat_le};
ghost use Rattle.std.specs.List.{list_all};
ghost use Rattle.byte_lists.specs.Byte.{IsByte};
ghost use Rattle.jam_layout.specs.Address.{is_address};
ghost use Rattle.jam_layout.specs.Fields.{is_text as is_text_of};
ghost use Rattle.jam_layout.specs.Marks.{is_net as is_net_kind};
ghost use Rattle.jam_layout.specs.Messages.{AreBytes, IsTyped};
ghost use Rattle.slot_changes.specs.Values.{MayHold, is_empty_or, has_right_texts as texts_are_right, is_private_enough as private_enough, is_right as message_is_right, is_right_body as body_is_right};

use byte_lists::Bytes;
use jam_layout::moments;
use jam_records::{Kind, Message, address_text};

/// Whether no byte is below 20h.
fn is_printable(text: &[u8]) -> bool
    ensures { result ≡ list_all (λ b. nat_le 0x20 b) text.now }
{
    text.iter().all(|b| 0x20 <= *b)
}

/// Whether a text has 1 to so many bytes, none below 20h.
#[tactic(auto, unfolding(jam_layout::specs::Fields::is_text))]
fn is_text(most: usize, text: &Bytes) -> bool
    ensures text { result ≡ is_text_of most text.now }
    ensures bytes { All IsByte text.now }
{
    let text = text.as_slice();
    let printable = is_printable(text);
    1 <= text.len() && text.len() <= most && printable
}

/// Whether a text is empty, or has at most so many bytes, none below 20h.
fn is_empty_or_text(most: usize, text: &Bytes) -> bool
    ensures text { result ≡ is_empty_or (is_text_of most) text.now }
    ensures bytes { All IsByte text.now }
{
    text.as_slice().is_empty() || is_text(most, text)
}

/// Whether a text is an address as it is stored.
fn is_stored_address(text: &[u8]) -> bool
    ensures { result ≡ is_address text.now }
{
    address_text(text)
}

/// Whether a text is empty, or an address as it is stored.
fn is_empty_or_address(text: &Bytes) -> bool
    ensures text { result ≡ is_empty_or is_address text.now }
    ensures bytes { All IsByte text.now }
{
    let text = text.as_slice();
    text.is_empty() || is_stored_address(text)
}

/// Whether the texts of a message are such as it may have. A msgid may be missing.
#[tactic(auto, unfolding(crate::specs::Values::has_right_texts))]
fn has_right_texts(message: &Message) -> bool
    ensures texts { result ≡ texts_are_right message.now }
    ensures bytes { All IsByte message.now.body → AreBytes message.now }
{
    let from = is_text(36, &message.from);
    let to = is_text(36, &message.to);
    let origin = is_empty_or_address(&message.origin);
    let destination = is_empty_or_address(&message.destination);
    let msgid = is_empty_or_text(80, &message.msgid);
    let replyid = is_empty_or_text(80, &message.replyid);
    let subject = is_empty_or_text(72, &message.subject);
    ((from && to) && (origin && destination)) && ((msgid && replyid) && subject)
}

/// Whether a body is empty, or has at most 16,384 bytes and ends with a carriage return.
#[tactic(auto, unfolding(crate::specs::Values::is_right_body))]
fn is_right_body(body: &Bytes) -> bool
    ensures body { result ≡ body_is_right body.now }
    ensures bytes { All IsByte body.now }
{
    let body = body.as_slice();
    body.is_empty() || (body.len() <= 16384 && body[body.len() - 1] == b'\r')
}

/// Whether the messages of a conference go to one person at an address.
pub fn is_net(kind: Kind) -> bool
    ensures { result ≡ is_net_kind kind }
{
    match kind {
        Kind::Local => false,
        Kind::Echo => false,
        Kind::Net => true,
    }
}

/// Whether a message is private, or need not be.
fn is_private_enough(kind: Kind, message: &Message) -> bool
    ensures { result ≡ private_enough kind message.now }
{
    message.private || !is_net(kind)
}

/// Whether a message passes all tests, but for a msgid that may be missing.
fn is_right(kind: Kind, message: &Message) -> bool
    ensures right { result ≡ message_is_right kind message.now }
    ensures typed { IsTyped message.now }
{
    let _moments = moments(message);
    let texts = has_right_texts(message);
    let body = is_right_body(&message.body);
    let private = is_private_enough(kind, message);
    (texts && body) && private
}

/// Whether a conference of this kind may hold a message, once it has a msgid. It takes no memory.
pub fn may_hold(kind: Kind, message: &Message) -> bool
    ensures { IsTrue result ↔ MayHold kind message.now }
{
    is_right(kind, message)
}

/// Whether a conference of this kind may hold each of the messages, once it has a msgid.
pub(crate) fn may_hold_all(kind: Kind, messages: &[Message]) -> bool
    ensures { IsTrue result ↔ All (MayHold kind) messages.now }
{
    for message in messages {
        if !may_hold(kind, message) {
            return false;
        }
    }
    true
}
