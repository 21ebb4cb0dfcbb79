//! Links between messages and their answers.
ghost use Rattle.std.specs.Prelude.{◌<◌, ◌++◌, ◌∷◌, [], length, IfOk};
ghost use Rattle.jam_records.specs.declared.message.Slot.TheVariants.{Held};
ghost use Rattle.jam_threads.specs.Threading.{AreThreads};

use super::texts::{Subject, expect, parted};
use byte_lists::Bytes;
use jam_records::{Message, Slot, Slots};
use jam_threads::{Link, Threads, laws, links, original_of};
use std::alloc::{AllocError, Global};
use std::test::Fail;

/// Slots, each by the id of its message and the id that it answers, of one letter each: a dot is an empty id, and two
/// dashes are a slot that is gone.
///
/// `links` gives how many there are, and the links of each to the original, the first answer and the next.
///
/// `next` takes an id. It gives the original of a message that answers this id and is added next, and the link number
/// that the message changes.
///
/// `add` adds a message by its two ids. Then it gives the links of those before it, and the original of each.
const TABLE: &str = r#"
links  = 0
links a. ba ca da = 4 0,2,0 1,0,3 1,0,4 1,0,0
links a. ba cb dc eb fa = 6 0,2,0 1,3,6 2,4,5 3,0,0 2,0,0 1,0,0
links aa aa aa aa = 4 0,2,0 1,0,3 1,0,4 1,0,0
links ba ab ba .. a. = 5 0,2,0 1,3,0 2,0,0 0,0,0 0,0,0
links -- aa -- ba ca -- = 6 0,0,0 0,4,0 0,0,0 2,0,5 2,0,0 0,0,0
next a  = 0 0 None
next a a. = 1 1 Some(LinkPatch { number: 1, field: First, value: 2 })
next a a. ba = 1 1 Some(LinkPatch { number: 2, field: Next, value: 3 })
next a a. ba ca = 1 1 Some(LinkPatch { number: 3, field: Next, value: 4 })
next b a. ba ca = 2 2 Some(LinkPatch { number: 2, field: First, value: 4 })
next x a. ba ca = 0 0 None
next a -- .. a. a. = 3 3 Some(LinkPatch { number: 3, field: First, value: 5 })
next . -- .. a. a. = 0 0 None
next b -- .. a. a. = 0 0 None
add da a. ba ca =  0,2,0 0 1,0,3 1 1,0,4 1
add b. ba =  0,0,0 0
"#;

/// An id by its letter.
fn id_of(alloc: Global, id: u8) -> Result<Bytes, AllocError> {
    if id == b'.' {
        return Ok(Bytes::new(alloc));
    }
    Bytes::from_slice(alloc, &[id])
}

/// A message of these ids.
fn message(alloc: Global, msgid: Bytes, replyid: Bytes) -> Message {
    Message {
        from: Bytes::new(alloc),
        to: Bytes::new(alloc),
        subject: Bytes::new(alloc),
        msgid,
        replyid,
        origin: Bytes::new(alloc),
        destination: Bytes::new(alloc),
        body: Bytes::new(alloc),
        written: 0,
        received: 0,
        processed: 0,
        local: false,
        private: false,
        seen: false,
        deleted: true,
    }
}

/// A slot by its letters.
fn slot_of(alloc: Global, ids: &str) -> Result<Slot, Fail> {
    let &[msgid, replyid] = ids.as_bytes() else {
        return Err(Fail::from("no slot"));
    };
    if msgid == b'-' {
        return Ok(Slot::Gone);
    }
    let msgid = id_of(alloc, msgid)?;
    Ok(Slot::Held(message(alloc, msgid, id_of(alloc, replyid)?)))
}

/// At most nine slots.
fn slots_of(alloc: Global, all: &str) -> Result<Slots, Fail>
    ensures { IfOk result (λ slots. length slots < 10) }
{
    let mut slots = Slots::new(alloc);
    for ids in all.split_ascii_whitespace() {
        slots.add(slot_of(alloc, ids)?)?;
    }
    if slots.len() > 9 {
        return Err(Fail::from("too many slots"));
    }
    Ok(slots)
}

fn text_of(alloc: Global, link: Link) -> Result<String, AllocError> {
    let Link { to, first, next } = link;
    format!(in alloc; " {to},{first},{next}")
}

/// How many links there are, and each of them.
fn found_links(alloc: Global, slots: &Slots) -> Result<String, AllocError>
    requires { length slots.now < 10 }
{
    let links = links(alloc, slots)?;
    let count = slots.len();
    let mut text = format!(in alloc; "{count}")?;
    for place in 0..count {
        if let Some(link) = links.get(place) {
            text.push_str(text_of(alloc, link)?.as_str())?;
        }
    }
    Ok(text)
}

/// The threads of slots, which a copy of them keeps.
fn threads_of(alloc: Global, slots: &Slots) -> Result<Threads, AllocError>
    requires { length slots.now < 10 }
    ensures { IfOk result (AreThreads slots.now) }
{
    let threads = Threads::of(alloc, slots)?;
    threads.copy(alloc)
}

/// The original of a message that is added next and answers this id, by both calls, and the link number that it
/// changes.
fn found_next(alloc: Global, slots: &Slots, replyid: &[u8]) -> Result<String, AllocError>
    requires { length slots.now < 10 }
{
    let threads = threads_of(alloc, slots)?;
    let (one, other) = (original_of(slots, replyid), threads.original(replyid));
    let change = threads.link_new(replyid);
    format!(in alloc; "{one} {other} {change:?}")
}

/// The threads of the slots and of one message more.
fn with_message(alloc: Global, slots: &Slots, message: &Message) -> Result<Threads, AllocError>
    requires { length slots.now < 10 }
    ensures { IfOk result (AreThreads (slots.now ++ Held message.now ∷ [])) }
{
    let mut threads = threads_of(alloc, slots)?;
    threads.add(message.msgid.as_slice(), message.replyid.as_slice())?;
    Ok(threads)
}

/// Adds the links of a slot, and the number that it answers.
fn add_link(alloc: Global, text: &mut String, link: Link, original: u32) -> Result<(), AllocError> {
    text.push_str(text_of(alloc, link)?.as_str())?;
    text.push_str(format!(in alloc; " {original}")?.as_str())
}

/// The links of the slots, and the number that each answers, once one message more is there.
fn found_with(alloc: Global, slots: &Slots, message: &Message) -> Result<String, AllocError>
    requires { length slots.now < 10 }
{
    let threads = with_message(alloc, slots, message)?;
    let mut text = String::new(alloc);
    for place in 0..slots.len() {
        let (link, original) = (threads.link(place), threads.reply_to(place as u32 + 1));
        add_link(alloc, &mut text, link, original)?;
    }
    Ok(text)
}

/// What is found of slots.
#[derive(Drop)]
struct Links;

impl Links {
    /// What is found of slots, and of an id or a message beside them.
    fn beside(alloc: Global, verb: &str, word: &str, slots: &Slots) -> Result<String, Fail>
        requires { length slots.now < 10 }
    {
        if verb == "next" {
            let id = word.trim_matches('.');
            return Ok(found_next(alloc, slots, id.as_bytes())?);
        }
        match slot_of(alloc, word)? {
            Slot::Held(message) => Ok(found_with(alloc, slots, &message)?),
            Slot::Gone => Err(Fail::from("no message")),
        }
    }
}

impl Subject for Links {
    fn found(&mut self, alloc: Global, asked: &str) -> Result<String, Fail> {
        let (verb, words) = parted(asked)?;
        if verb == "links" {
            let slots = slots_of(alloc, words)?;
            return Ok(found_links(alloc, &slots)?);
        }
        let (word, words) = parted(words)?;
        let slots = slots_of(alloc, words)?;
        Links::beside(alloc, verb, word, &slots)
    }
}

#[test]
fn messages_have_these_links(rt: HostRuntime) -> Result<(), Fail> {
    laws::one_link();
    expect(rt.alloc(), &mut Links, TABLE)
}
