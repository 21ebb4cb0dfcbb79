//! The conference of the examples: its readers, and what its files share.
ghost use Rattle.std.specs.Prelude.{◌≡◌, ◌<◌, ◌^◌, length, All, IfOk, IsTrue};
ghost use Rattle.jam_layout.specs.Valid.{IsShape};

use byte_lists::Bytes;
use jam_layout::{BaseFiles, Reader, Readers, Shape};
use jam_records::{Kind, Message};
use std::alloc::{AllocError, Global};

/// What the board says of it.
pub fn general(alloc: Global) -> Result<Shape, AllocError>
    ensures shape { IfOk result IsShape }
    ensures readers { IfOk result (λ shape. All (λ reader. reader.id < 5) shape.readers) }
    ensures kind { IfOk result (λ shape. shape.kind ≡ Kind.Local) }
{
    let mut readers = Readers::new(alloc);
    let name = Bytes::from_slice(alloc, b"Ann Lee")?;
    readers.add(alloc, Reader { id: 1, name })?;
    let name = Bytes::from_slice(alloc, b"Bob Ray")?;
    readers.add(alloc, Reader { id: 2, name })?;
    let name = Bytes::from_slice(alloc, b"Sam Sysop")?;
    readers.add(alloc, Reader { id: 3, name })?;
    let name = Bytes::from_slice(alloc, b"Cy Day")?;
    readers.add(alloc, Reader { id: 4, name })?;
    Ok(Shape {
        place: 0,
        created: 1_000_000_000,
        kind: Kind::Local,
        readers,
    })
}

/// Whether each file is as short as those who read it ask.
pub fn are_short(files: &BaseFiles) -> bool
    ensures jhr { IsTrue result → length files.now.jhr < 2 ^ 31 }
    ensures jdt { IsTrue result → length files.now.jdt < 2 ^ 31 }
    ensures jdx { IsTrue result → length files.now.jdx < 2 ^ 31 }
    ensures jlr { IsTrue result → length files.now.jlr < 2 ^ 31 }
{
    let most = 1usize << 31;
    let records = files.jdx.as_slice().len() < most && files.jlr.as_slice().len() < most;
    records && files.jhr.as_slice().len() < most && files.jdt.as_slice().len() < most
}

/// Adds a text in quotes, and a space behind it.
fn add_text(alloc: Global, line: &mut String, text: &Bytes) -> Result<(), AllocError> {
    let text = String::from_utf8_lossy(alloc, text.as_slice())?;
    let quoted = format!(in alloc; "{text:?} ")?;
    line.push_str(quoted.as_str())
}

/// Adds the texts of a message.
fn add_texts(alloc: Global, line: &mut String, message: &Message) -> Result<(), AllocError> {
    add_text(alloc, line, &message.from)?;
    add_text(alloc, line, &message.to)?;
    add_text(alloc, line, &message.subject)?;
    add_text(alloc, line, &message.msgid)?;
    add_text(alloc, line, &message.replyid)?;
    add_text(alloc, line, &message.origin)?;
    add_text(alloc, line, &message.destination)?;
    add_text(alloc, line, &message.body)
}

/// The texts of a message.
fn texts_of(alloc: Global, message: &Message) -> Result<String, AllocError> {
    let mut line = String::new(alloc);
    add_texts(alloc, &mut line, message)?;
    Ok(line)
}

/// A message as a text: from whom and to whom it is, about what, its ids, its addresses, its body, when it was written,
/// received and processed, and whether it is local, private, seen and deleted.
pub fn line_of(alloc: Global, message: &Message) -> Result<String, AllocError> {
    let texts = texts_of(alloc, message)?;
    let (written, received) = (message.written, message.received);
    let (local, private) = (message.local, message.private);
    let (seen, deleted) = (message.seen, message.deleted);
    let processed = message.processed;
    format!(in alloc; "{texts}{written} {received} {processed} {local} {private} {seen} {deleted}")
}
