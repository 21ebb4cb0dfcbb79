//! The first faults of packets. What is found is the rule with its place, or how many messages there are.
use super::samples::{joined, read};
use byte_lists::Bytes;
use fts_packet::FtsError;
use std::alloc::{AllocError, Global};
use test_cases::{Miss, expect_cases, number_of};

/// What is found in a packet.
fn outcome(alloc: Global, bytes: &[u8]) -> Result<String, AllocError> {
    match read(alloc, bytes) {
        Ok(packet) => format!(in alloc; "{} messages", packet.len()),
        Err(FtsError::Fault { rule, at }) => {
            format!(in alloc; "{} {at}", rule.word().escape_ascii())
        }
        Err(FtsError::OutOfMemory) => Err(AllocError),
    }
}

/// So many first bytes of a packet, or all of them.
fn front<'a>(bytes: &'a [u8], length: &[u8]) -> Result<&'a [u8], Miss> {
    if length == b"all".as_slice() {
        return Ok(bytes);
    }
    let length = number_of(length)?;
    bytes.get(..length as usize).ok_or(Miss::Words)
}

fn read_front(alloc: Global, words: &[Bytes]) -> Result<String, Miss> {
    let [length, words @ ..] = words else {
        return Err(Miss::Words);
    };
    let bytes = joined(alloc, words)?;
    let front = front(bytes.as_slice(), length.as_slice())?;
    Ok(outcome(alloc, front)?)
}

/// A case is how many of a packet's first bytes there are, or `all`, and its parts.
const CASES: &str = r#"
# The fronts of the example.
0 header => short 0
57 header => short 0
58 header => 0 messages
59 header numbers date names echo \0\0 => cut 58
60 header numbers date names echo \0\0 => cut 58
91 header numbers date names echo \0\0 => cut 58
92 header numbers date names echo \0\0 => cut 58
99 header numbers date names echo \0\0 => cut 58
103 header numbers date names echo \0\0 => cut 58
107 header numbers date names echo \0\0 => cut 58
144 header numbers date names echo \0\0 => cut 58
145 header numbers date names echo \0\0 => 1 messages
146 header numbers date names echo \0\0 => cut 145
147 header numbers date names echo \0\0 => 1 messages
# Whole packets, and the places of their faults.
all h\{18}\x02\0 h\{38} => 0 messages
all h\{18}\x03\0 h\{38} => type 18
all h\{18}\x02\x01 h\{38} => type 18
all h\{18}\0\0 h\{38} => type 18
all h\{18}\x03\0 h\{37} => short 0
all header \0 => cut 58
all header \0\0 => 0 messages
all header \0\0free => 0 messages
all header \x01\0 => kind 58
all header \x02\x01 => kind 58
all header \0\x02 => kind 58
all header \x02\0 => cut 58
all header numbers date \0\0\0\0 => 1 messages
all header numbers date \0\0\0\0 numbers date \0\0\0\0 \0\0 => 2 messages
all header numbers date \0\0\0\0 \0\0 numbers date \0\0\0\0 => 1 messages
all header numbers date names \0 \x01\0 => kind 108
all header numbers date names \0 \x02\x01 => kind 108
all header numbers date names \0 \0\x02 => kind 108
all header numbers date names \0 \x02\0 => cut 108
all header numbers date names \0 \0 => cut 108
all header numbers date names \0 \0\0\x03\0 => 1 messages
# A field has its NUL in its 36 bytes, Subject in its 72, or the file ends in them, or it is too long.
all header numbers date x\{35}\0 x\{35}\0 x\{71}\0\0 => 1 messages
all header numbers date x\{36}\0 \0\0\0 => field 58
all header numbers date x\{36} => field 58
all header numbers date x\{35} => cut 58
all header numbers date \0 x\{36}\0 \0\0 => field 58
all header numbers date \0 x\{36} => field 58
all header numbers date \0 x\{35} => cut 58
all header numbers date \0\0 x\{71}\0\0 => 1 messages
all header numbers date \0\0 x\{72}\0\0 => field 58
all header numbers date \0\0 x\{72} => field 58
all header numbers date \0\0 x\{71} => cut 58
all header numbers date \0\0\0 x\{105} => cut 58
"#;

#[test]
fn faults_come_by_place(rt: HostRuntime) -> Result<(), Miss> {
    expect_cases(rt.alloc(), CASES, read_front)
}
