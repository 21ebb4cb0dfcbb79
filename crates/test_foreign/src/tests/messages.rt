//! Messages of another tool, by their subfields and texts. A case is subfields, two words each: an id and a value; and
//! `text` with the text.
use super::files::{ForeignFiles, add_number};
use super::lines::first_message;
use byte_lists::Bytes;
use jam_records::{
    BaseHeader, IndexRecord, MessageHeader, write_base_header, write_index, write_message_header,
};
use std::alloc::{AllocError, Global};
use test_cases::{Miss, expect_cases, number_of};

/// The fixed part of a header that was written at 1, received at 2 and processed at 3.
fn header(subfield_len: u32, text_len: u32) -> MessageHeader {
    MessageHeader {
        subfield_len,
        times_read: 4,
        msgid_crc: 5,
        reply_crc: 6,
        reply_to: 7,
        reply1st: 8,
        reply_next: 9,
        written: 1,
        received: 2,
        processed: 3,
        number: 10,
        attribute: 0x7F80_FFF2,
        attribute2: 11,
        offset: 0,
        text_len,
        password_crc: 12,
        cost: 13,
    }
}

/// The base header of another tool.
fn base_header() -> [u8; 1024] {
    write_base_header(&BaseHeader {
        created: 1,
        mod_counter: 2,
        active: 3,
        password_crc: 4,
        base_number: 5,
    })
}

/// How many bytes there are.
fn count(bytes: &Bytes) -> u32 {
    u32::try_from(bytes.as_slice().len()).unwrap_or(0)
}

/// Adds a subfield.
fn add_field(fields: &mut Bytes, id: u32, value: &Bytes) -> Result<(), AllocError> {
    add_number(fields, id)?;
    add_number(fields, count(value))?;
    fields.add(value.as_slice())
}

/// The files of one message.
fn files_of(alloc: Global, fields: &Bytes, text: Bytes) -> Result<ForeignFiles, AllocError> {
    let mut jhr = Bytes::from_slice(alloc, &base_header())?;
    jhr.add(&write_message_header(&header(count(fields), count(&text))))?;
    jhr.add(fields.as_slice())?;
    let record = IndexRecord {
        to_crc: 0,
        offset: 1024,
    };
    let jdx = Bytes::from_slice(alloc, &write_index(&record))?;
    Ok(ForeignFiles {
        jhr,
        jdt: text,
        jdx,
    })
}

/// Finds the message.
fn message_of(alloc: Global, words: &[Bytes]) -> Result<String, Miss> {
    let mut fields = Bytes::new(alloc);
    let mut text = Bytes::new(alloc);
    for part in words.chunks(2) {
        let [name, value] = part else {
            return Err(Miss::Words);
        };
        if name.as_slice() == b"text".as_slice() {
            text = value.copy(alloc)?;
        } else {
            add_field(&mut fields, number_of(name.as_slice())?, value)?;
        }
    }
    let files = files_of(alloc, &fields, text)?;
    Ok(first_message(alloc, &files.read(alloc)?)?)
}

const MESSAGES: &str = r#"
2 Joe 3 Ann text Hi => "Joe" "Ann" "" "" "" "" "" "Hi\r" 1 2 3 false false false false
3 Ann 2 Joe => "Joe" "Ann" "" "" "" "" "" "" 1 2 3 false false false false
2 Joe 2 Ann => "Joe" "All" "" "" "" "" "" "" 1 2 3 false false false false
2 "" 3 "" 6 "" => "Unknown" "All" "" "" "" "" "" "" 1 2 3 false false false false
2 "" 2 Joe => "Unknown" "All" "" "" "" "" "" "" 1 2 3 false false false false
2 "   " 3 "  " => "Unknown" "All" "" "" "" "" "" "" 1 2 3 false false false false
2 "Joe  " 3 " Ann" => "Joe" " Ann" "" "" "" "" "" "" 1 2 3 false false false false
2 J\x1Fe\0 3 \x01 => "J?e?" "?" "" "" "" "" "" "" 1 2 3 false false false false
2 "Joe \x01" 3 Ann\x7F => "Joe ?" "Ann\x7f" "" "" "" "" "" "" 1 2 3 false false false false
2 123456789012345678901234567890123456 3 1234567890123456789012345678901234567 => "123456789012345678901234567890123456" "123456789012345678901234567890123456" "" "" "" "" "" "" 1 2 3 false false false false
2 "12345678901234567890123456789012345 7" 3 "                                    Ann" => "12345678901234567890123456789012345" "All" "" "" "" "" "" "" 1 2 3 false false false false
6 1234567890123456789012345678901234567890123456789012345678901234567890123 => "Unknown" "All" "123456789012345678901234567890123456789012345678901234567890123456789012" "" "" "" "" "" 1 2 3 false false false false
4 12345678901234567890123456789012345678901234567890123456789012345678901234567890 5 a => "Unknown" "All" "" "12345678901234567890123456789012345678901234567890123456789012345678901234567890" "a" "" "" "" 1 2 3 false false false false
4 123456789012345678901234567890123456789012345678901234567890123456789012345678901 5 a\x1F => "Unknown" "All" "" "" "" "" "" "" 1 2 3 false false false false
4 "a " 5 " b" => "Unknown" "All" "" "a " " b" "" "" "" 1 2 3 false false false false
0 2:5020/400.1 1 32767:32767/32767.32767 => "Unknown" "All" "" "" "" "2:5020/400.1" "32767:32767/32767.32767" "" 1 2 3 false false false false
0 2:5020/400.0 1 "2:5020/400 " => "Unknown" "All" "" "" "" "" "" "" 1 2 3 false false false false
0 12:5020/400@fidonet 1 000002:00005020/400 => "Unknown" "All" "" "" "" "" "" "" 1 2 3 false false false false
7 PID 2000 FLAGS 2 Joe => "Joe" "All" "" "" "" "" "" "" 1 2 3 false false false false
258 Joe 2 Ann => "Ann" "All" "" "" "" "" "" "" 1 2 3 false false false false
text a\nb\r\nc => "Unknown" "All" "" "" "" "" "" "ab\rc\r" 1 2 3 false false false false
text a\r\n => "Unknown" "All" "" "" "" "" "" "a\r" 1 2 3 false false false false
text \n\n => "Unknown" "All" "" "" "" "" "" "" 1 2 3 false false false false
text \r => "Unknown" "All" "" "" "" "" "" "\r" 1 2 3 false false false false
"#;

#[test]
fn messages_are_made_of_subfields(rt: HostRuntime) -> Result<(), Miss> {
    expect_cases(rt.alloc(), MESSAGES, message_of)
}
