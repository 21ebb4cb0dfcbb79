//! Packets of the cases. A word of a case is bytes, or the name of a part of the example `toss-echo`.
use byte_lists::Bytes;
use fts_packet::{FtsError, FtsPacket, read_packet};
use std::alloc::{AllocError, Global};
use test_cases::Miss;

/// The header of a type 2 packet from zone 2 to zone 2. Its free bytes are `h`.
const HEADER: &[u8] =
    b"hhhhhhhhhhhhhhhhhh\x02\x00hhhhhhhhhhhhhh\x02\x00\x02\x00hhhhhhhhhhhhhhhhhhhh";

/// The numbers of a message from 5020/400 to 5020/1, with an attribute and a cost.
const NUMBERS: &[u8] = b"\x02\x00\x90\x01\x01\x00\x9c\x13\x9c\x13aacc";

/// A date that reads as 1,000,000,000.
const DATE: &[u8] = b"09 Sep 01  01:46:40\0";

/// To, From and Subject, each with its NUL.
const NAMES: &[u8] = b"Ann Lee\0Joe\0Hi\0";

/// The text, with its NUL.
const ECHO: &[u8] = b"AREA:FIDO\r\x01MSGID: 2:5020/400 1\rHello\r\0";

/// The bytes of a word.
fn part_of(word: &[u8]) -> &[u8] {
    match word {
        b"header" => HEADER,
        b"numbers" => NUMBERS,
        b"date" => DATE,
        b"names" => NAMES,
        b"echo" => ECHO,
        _ => word,
    }
}

/// The bytes of these words, one after the other.
pub fn joined(alloc: Global, words: &[Bytes]) -> Result<Bytes, AllocError> {
    let mut bytes = Bytes::new(alloc);
    for word in words {
        bytes.add(part_of(word.as_slice()))?;
    }
    Ok(bytes)
}

/// The messages of a packet, which has fewer than 2^31 bytes.
pub fn read(alloc: Global, bytes: &[u8]) -> Result<FtsPacket, FtsError> {
    if bytes.len() >= 1 << 31 {
        return Err(FtsError::OutOfMemory);
    }
    read_packet(alloc, bytes)
}

/// The messages of a packet that reads.
pub fn messages_of(alloc: Global, words: &[Bytes]) -> Result<FtsPacket, Miss> {
    let bytes = joined(alloc, words)?;
    read(alloc, bytes.as_slice()).ok().ok_or(Miss::Unreached)
}
