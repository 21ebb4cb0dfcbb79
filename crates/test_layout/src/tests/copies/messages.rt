//! Messages, and the lists that hold them.
ghost use Rattle.std.specs.Prelude.{◌<◌, length, IfOk};

use super::expect;
use byte_lists::Bytes;
use jam_records::{Message, Messages, Slot, Slots};
use jam_threads::{Links, links};
use post_changes::Posts;
use std::alloc::{AllocError, Global};
use std::test::Fail;

/// A message without texts, whose numbers differ.
fn empty(alloc: Global) -> Message {
    Message {
        from: Bytes::new(alloc),
        to: Bytes::new(alloc),
        subject: Bytes::new(alloc),
        msgid: Bytes::new(alloc),
        replyid: Bytes::new(alloc),
        origin: Bytes::new(alloc),
        destination: Bytes::new(alloc),
        body: Bytes::new(alloc),
        written: 1,
        received: 2,
        processed: 3,
        local: true,
        private: false,
        seen: true,
        deleted: false,
    }
}

/// Gives it texts that differ.
fn fill(message: &mut Message) -> Result<(), AllocError> {
    message.from.add(b"Bob Ray")?;
    message.to.add(b"Ann Lee")?;
    message.subject.add(b"Hello")?;
    message.msgid.add(b"0.1.TESTBBS")?;
    message.origin.add(b"2:5020/400")?;
    message.destination.add(b"2:5020/400.1")?;
    message.body.add(b"First line\r")
}

/// A message whose texts and numbers differ.
fn message_of(alloc: Global) -> Result<Message, AllocError> {
    let mut message = empty(alloc);
    fill(&mut message)?;
    Ok(message)
}

/// Whether two messages are equal.
fn are_equal(one: &Message, other: &Message) -> bool {
    one.from.as_slice() == other.from.as_slice()
        && one.to.as_slice() == other.to.as_slice()
        && one.subject.as_slice() == other.subject.as_slice()
        && one.msgid.as_slice() == other.msgid.as_slice()
        && one.replyid.as_slice() == other.replyid.as_slice()
        && one.origin.as_slice() == other.origin.as_slice()
        && one.destination.as_slice() == other.destination.as_slice()
        && one.body.as_slice() == other.body.as_slice()
        && (one.written, one.received, one.processed)
            == (other.written, other.received, other.processed)
        && (one.local, one.private) == (other.local, other.private)
        && (one.seen, one.deleted) == (other.seen, other.deleted)
}

fn messages_of(alloc: Global) -> Result<Messages, AllocError> {
    let mut messages = Messages::new(alloc);
    messages.add(message_of(alloc)?)?;
    Ok(messages)
}

/// Whether messages are this one alone.
fn are_messages(messages: &Messages, wanted: &Message) -> bool {
    match messages.as_slice() {
        [message] => are_equal(message, wanted),
        _ => false,
    }
}

/// Whether the copy of messages is this one alone.
fn copies_messages(alloc: Global, wanted: &Message) -> Result<bool, AllocError> {
    let copies = messages_of(alloc)?.copy(alloc)?;
    Ok(are_messages(&copies, wanted))
}

fn posts_of(alloc: Global) -> Result<Posts, AllocError> {
    let mut posts = Posts::new(alloc);
    posts.add((3, message_of(alloc)?))?;
    Ok(posts)
}

/// Whether posts are this message alone, in place 3.
fn are_posts(posts: &Posts, wanted: &Message) -> bool {
    match posts.as_slice() {
        [(place, message)] => *place == 3 && are_equal(message, wanted),
        _ => false,
    }
}

/// Whether the copy of posts is that.
fn copies_posts(alloc: Global, wanted: &Message) -> Result<bool, AllocError> {
    let copies = posts_of(alloc)?.copy(alloc)?;
    Ok(are_posts(&copies, wanted))
}

/// A slot that is gone, and one that holds a message.
fn slots_of(alloc: Global) -> Result<Slots, AllocError>
    ensures { IfOk result (λ slots. length slots < 10) }
{
    let mut slots = Slots::new(alloc);
    slots.add(Slot::Gone)?;
    slots.add(Slot::Held(message_of(alloc)?))?;
    Ok(slots)
}

/// Whether slots are that, and hold this message.
fn are_slots(slots: &Slots, wanted: &Message) -> bool {
    match slots.as_slice() {
        [Slot::Gone, Slot::Held(message)] => are_equal(message, wanted),
        _ => false,
    }
}

/// Whether the copy of slots holds this message.
fn copies_slots(alloc: Global, wanted: &Message) -> Result<bool, AllocError> {
    let copies = slots_of(alloc)?.copy(alloc)?;
    Ok(are_slots(&copies, wanted))
}

/// The links of those slots.
fn links_of(alloc: Global) -> Result<Links, AllocError> {
    let slots = slots_of(alloc)?;
    links(alloc, &slots)
}

/// Whether links are of two slots, and the second is that of others.
fn are_links(links: &Links, others: &Links) -> bool {
    links.get(1).is_some() && links.get(2).is_none() && links.get(1) == others.get(1)
}

/// Whether the copy of links is.
fn copies_links(alloc: Global, found: &Links) -> Result<bool, AllocError> {
    let copies = found.copy(alloc)?;
    Ok(are_links(&copies, found))
}

/// Whether the copies of the links of those slots are.
fn copies_found_links(alloc: Global) -> Result<bool, AllocError> {
    let found = links_of(alloc)?;
    copies_links(alloc, &found)
}

/// Whether the copy of each list is what it is of.
fn copies_all(alloc: Global, wanted: &Message) -> Result<bool, AllocError> {
    let messages = copies_messages(alloc, wanted)? && copies_posts(alloc, wanted)?;
    Ok(messages && copies_slots(alloc, wanted)? && copies_found_links(alloc)?)
}

#[test]
fn messages_and_what_holds_them_are_copied(rt: HostRuntime) -> Result<(), Fail> {
    let wanted = message_of(rt.alloc())?;
    let same = copies_all(rt.alloc(), &wanted)?;
    expect(same)
}
