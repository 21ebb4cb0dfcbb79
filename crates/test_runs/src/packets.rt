//! The packets of the examples.
use crate::files::put;
use crate::miss::Miss;
use byte_lists::Bytes;
use memory_outside::MemoryShelf;
use std::alloc::{AllocError, Global};

/// The CONTROL.DAT of the example, in lines that end with CR LF.
pub const CONTROL: &[u8] =
    b"Test Board\r\nSpringfield\r\n555-0100\r\nSam Sysop\r\n12345,TESTBBS\r\n09-09-2001,01:46:40\r\nANN LEE\r\n\r\n0\r\n1\r\n2\r\n0\r\nGENERAL\r\n1\r\nNETMAIL\r\n7\r\nNEWS\r\nWELCOME\r\nNEWS\r\nGOODBYE\r\n";

/// Adds a text, and a byte up to a width.
fn add_field(file: &mut Bytes, text: &[u8], width: usize, pad: u8) -> Result<(), AllocError> {
    file.add(text)?;
    for _ in text.len()..width {
        file.add(&[pad])?;
    }
    Ok(())
}

/// Adds the header block of the example, with its count of blocks.
fn add_header(file: &mut Bytes, count: &[u8]) -> Result<(), AllocError> {
    file.add(b" ")?;
    add_field(file, b"1", 7, b' ')?;
    file.add(b"09-09-0101:46")?;
    add_field(file, b"ALL", 25, b' ')?;
    add_field(file, b"BOB RAY", 25, b' ')?;
    add_field(file, b"Hello", 25, b' ')?;
    add_field(file, b"", 12, b' ')?;
    add_field(file, b"0", 8, b' ')?;
    add_field(file, count, 6, b' ')?;
    file.add(&[0xE1, 0, 0, 1, 0, b' '])
}

/// A notice, and the header and one block of text of so many messages.
fn packet(alloc: Global, messages: usize, count: &[u8], pad: u8) -> Result<Bytes, AllocError> {
    let mut file = Bytes::new(alloc);
    add_field(&mut file, b"Produced by qwkdoor, packet 1", 128, b' ')?;
    for _ in 0..messages {
        add_header(&mut file, count)?;
        add_field(&mut file, b"First line\xE3", 128, pad)?;
    }
    Ok(file)
}

/// Puts the first bytes of a file.
fn put_front(
    shelf: &mut MemoryShelf,
    alloc: Global,
    name: &str,
    file: &Bytes,
    len: usize,
) -> Result<(), Miss> {
    put(
        shelf,
        alloc,
        name,
        file.as_slice().get(..len).ok_or("too short")?,
    )
}

/// The packets of the examples: their names, how many messages they have, the count of blocks of each, what texts are
/// filled up with, and how many bytes of them there are.
const FRONTS: [(&str, usize, &str, u8, usize); 9] = [
    ("P1", 1, "2", b' ', 384),
    ("p0", 1, "2", b' ', 0),
    ("p127", 1, "2", b' ', 127),
    ("p128", 1, "2", b' ', 128),
    ("cut", 2, "2", b' ', 639),
    ("zero", 1, "0", b' ', 384),
    ("blank", 1, "", b' ', 384),
    ("header", 1, "1", b' ', 256),
    ("nuls", 1, "2", 0, 384),
];

/// Puts the packets of the examples.
pub fn put_packets(shelf: &mut MemoryShelf, alloc: Global) -> Result<(), Miss> {
    for (name, messages, count, pad, len) in &FRONTS {
        let whole = packet(alloc, *messages, count.as_bytes(), *pad)?;
        put_front(shelf, alloc, name, &whole, *len)?;
    }
    Ok(())
}

/// Puts the folders around a packet: a whole one, and ones in which each refusal comes first.
fn put_around(shelf: &mut MemoryShelf, alloc: Global, one: &Bytes) -> Result<(), Miss> {
    put(shelf, alloc, "out/CONTROL.DAT", CONTROL)?;
    put(shelf, alloc, "out/MESSAGES.DAT", one.as_slice())?;
    put(shelf, alloc, "none/MESSAGES.DAT", one.as_slice())?;
    put(
        shelf,
        alloc,
        "short/CONTROL.DAT",
        b"one\ntwo\nthree\nfour\n",
    )?;
    put(shelf, alloc, "bare/CONTROL.DAT", CONTROL)?;
    put(shelf, alloc, "broken/CONTROL.DAT", CONTROL)?;
    put_front(shelf, alloc, "broken/MESSAGES.DAT", one, 383)
}

/// Puts the folders of packets.
pub(crate) fn put_folders(shelf: &mut MemoryShelf, alloc: Global) -> Result<(), Miss> {
    let one = packet(alloc, 1, b"2", b' ')?;
    put_around(shelf, alloc, &one)
}
