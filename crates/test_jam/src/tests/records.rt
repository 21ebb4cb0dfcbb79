//! Records of JAM, read and written.
ghost use Rattle.std.specs.Prelude.{◌<◌, ◌^◌, length};
ghost use Rattle.jam_records.specs.Subfields.{subfields_text};

use super::texts::{Subject, bytes_of, expect, parted};
use jam_records::{
    Subfields, address_text, read_base_header, read_index, read_last, read_message_header,
    read_subfields, write_base_header, write_index, write_last, write_message_header,
    write_subfields,
};
use std::alloc::{AllocError, Global};
use std::test::Fail;

/// Records by their bytes, and what is read of them: the numbers, and whether what is read is written as these bytes; or
/// why nothing is read. Numbers of 32 bits that are checksums or marks are hexadecimal.
///
/// The first header is that of the message 0.1.TESTBBS from Bob Ray to All about Hello, whose subfields follow it. The last
/// run of subfields has 8,250 empty ones behind the first, in more bytes than 16 bits count.
const TABLE: &str = r#"
header JAM\0\x01\0\0\0:\0\0\0\0\0\0\0\x01\x02\x03\x04\xFF\xFF\xFF\xFF\0\0\0\0\0\0\0\0\0\0\0\0\0\xCA\x9A;\0\0\0\0\0\xCA\x9A;\x01\0\0\0\x01\0\x80\0\0\0\0\0\0\0\0\0\x0B\0\0\0\xFF\xFF\xFF\xFF\0\0\0\0 = 58 4030201 1000000000 1 800001 11 true
header AM\0\x01\0\0\0:\0\0\0\0\0\0\0\x01\x02\x03\x04\xFF\xFF\xFF\xFF\0\0\0\0\0\0\0\0\0\0\0\0\0\xCA\x9A;\0\0\0\0\0\xCA\x9A;\x01\0\0\0\x01\0\x80\0\0\0\0\0\0\0\0\0\x0B\0\0\0\xFF\xFF\xFF\xFF\0\0\0\0 = Short
header JAM\0\x02\0\0\0:\0\0\0\0\0\0\0\x01\x02\x03\x04\xFF\xFF\xFF\xFF\0\0\0\0\0\0\0\0\0\0\0\0\0\xCA\x9A;\0\0\0\0\0\xCA\x9A;\x01\0\0\0\x01\0\x80\0\0\0\0\0\0\0\0\0\x0B\0\0\0\xFF\xFF\xFF\xFF\0\0\0\0 = Revision
header JAM\x01\x02\0\0\0:\0\0\0\0\0\0\0\x01\x02\x03\x04\xFF\xFF\xFF\xFF\0\0\0\0\0\0\0\0\0\0\0\0\0\xCA\x9A;\0\0\0\0\0\xCA\x9A;\x01\0\0\0\x01\0\x80\0\0\0\0\0\0\0\0\0\x0B\0\0\0\xFF\xFF\xFF\xFF\0\0\0\0 = Signature
subfields \x02\0\0\0\x07\0\0\0Bob Ray\x03\0\0\0\x03\0\0\0All\x04\0\0\0\x0B\0\0\00.1.TESTBBS\x06\0\0\0\x05\0\0\0Hello = 4 2 0 "Bob Ray" true
subfields \x02\0\0\0\x07\0\0\0Bob Ray\x03\0\0\0\x03\0\0\0All\x04\0\0\0\x0B\0\0\00.1.TESTBBS\x06\0\0\0\x05\0\0\0Hell = SubfieldEnd(45)
subfields \x02\0\0\0\x07\0\0\0Bob Ray\x03\0\0\0\x03\0\0\0All\x04\0\0\0\x0B\0\0\00.1.TESTBBS\x06\0\0\0\x05\0\0 = SubfieldEnd(45)
subfields \x02\0\0\0\x07\0\0\0Bob Ray\x03\0\0\0\x03\0\0\0All\x04\0\0\0\x0B\0\0\00.1.TESTBB = SubfieldEnd(26)
subfields \x02\0\0\0\x07\0\0\0Bob Ra = SubfieldEnd(0)
subfields \x02\0\0\0\x07\0\0 = SubfieldEnd(0)
subfields \x02\0\0\0\x07\0\0\0Bob Ray\z\z\z\z\z\z\z\z\z\z\z\z\z\z\z\z\z\z\z\z\z\z\z\z\z\z\z\z\z\z\z\z\z\z\z\z\z\z\z\z\z\z\z\z\z\z\z\z\z\z\z\z\z\z\z\z\z\z\z\z\z\z\z\z\z\z = 8251 2 0 "Bob Ray" true
base JAM\0\0\xCA\x9A;\x01\0\0\0\x02\0\0\0\xFF\xFF\xFF\xFF\x01\z\0\0\0 = 1000000000 1 2 ffffffff 1 true
base JAM\0\0\xCA\x9A;\x01\0\0\0\x02\0\0\0\xFF\xFF\xFF\xFF\x01\0\0\0 = Short
index \xD9\xC6\x0B4\0\x04\0\0 = 340bc6d9 1024 true
last \x01\0\0\0\x02\0\0\0\x03\0\0\0\0\x04\0\0 = 1 2 3 1024 true
address 0:0/0 = true
address 2:5020/400.1 = true
address 32767:32767/32767.32767 = true
address  = false
address 2:5020 = false
address 2:5020/ = false
address 2/5020:400 = false
address 02:5020/400 = false
address 2:5020/400.0 = false
address 2:5020/400. = false
address 2:5020/40000 = false
address +2:5020/400 = false
address 2:5020/400  = false
address 2:5020/400.1.1 = false
"#;

/// What is read of records.
#[derive(Drop)]
struct Records;

impl Subject for Records {
    fn found(&mut self, alloc: Global, asked: &str) -> Result<String, Fail> {
        let (verb, text) = parted(asked)?;
        let bytes = bytes_of(alloc, text)?;
        let found = match verb {
            "header" => header(alloc, bytes.as_slice()),
            "subfields" => subfields(alloc, bytes.as_slice()),
            "base" => base(alloc, bytes.as_slice()),
            "index" => index(alloc, bytes.as_slice()),
            "last" => last(alloc, bytes.as_slice()),
            _ => address(alloc, bytes.as_slice()),
        };
        Ok(found?)
    }
}

fn header(alloc: Global, bytes: &[u8]) -> Result<String, AllocError> {
    match read_message_header(bytes) {
        Err(error) => format!(in alloc; "{error:?}"),
        Ok(header) => {
            let same = write_message_header(&header).as_slice() == bytes;
            let (msgid, mark) = (header.msgid_crc, header.attribute);
            let (len, written) = (header.subfield_len, header.written);
            let (number, text) = (header.number, header.text_len);
            format!(in alloc; "{len} {msgid:x} {written} {number} {mark:x} {text} {same}")
        }
    }
}

/// How many subfields there are, and the first.
fn subfields(alloc: Global, bytes: &[u8]) -> Result<String, AllocError> {
    // No case has so many bytes, which the reader doesn't take.
    if bytes.len() >= 1 << 31 {
        return format!(in alloc; "too long");
    }
    match read_subfields(alloc, bytes) {
        Err(error) => format!(in alloc; "{error:?}"),
        Ok(subfields) => subfields_read(alloc, &subfields, bytes),
    }
}

/// The same of subfields that bytes were read as.
fn subfields_read(alloc: Global, subfields: &Subfields, bytes: &[u8]) -> Result<String, AllocError>
    requires { length (subfields_text subfields.now) < 2 ^ 31 }
{
    let count = subfields.len();
    let Some(first) = subfields.get(0) else {
        return format!(in alloc; "{count}");
    };
    let again = write_subfields(alloc, &subfields.copy(alloc)?)?;
    let same = again.as_slice() == bytes;
    let value = String::from_utf8_lossy(alloc, first.value.as_slice())?;
    let (lo, hi) = (first.lo, first.hi);
    format!(in alloc; "{count} {lo} {hi} {value:?} {same}")
}

fn base(alloc: Global, bytes: &[u8]) -> Result<String, AllocError> {
    match read_base_header(bytes) {
        Err(error) => format!(in alloc; "{error:?}"),
        Ok(header) => {
            let same = write_base_header(&header).as_slice() == bytes;
            let (created, changes) = (header.created, header.mod_counter);
            let (active, password) = (header.active, header.password_crc);
            let number = header.base_number;
            format!(in alloc; "{created} {changes} {active} {password:x} {number} {same}")
        }
    }
}

fn index(alloc: Global, bytes: &[u8]) -> Result<String, AllocError> {
    match read_index(bytes) {
        Err(error) => format!(in alloc; "{error:?}"),
        Ok(index) => {
            let same = write_index(&index).as_slice() == bytes;
            let (to, offset) = (index.to_crc, index.offset);
            format!(in alloc; "{to:x} {offset} {same}")
        }
    }
}

fn last(alloc: Global, bytes: &[u8]) -> Result<String, AllocError> {
    match read_last(bytes) {
        Err(error) => format!(in alloc; "{error:?}"),
        Ok(last) => {
            let same = write_last(&last).as_slice() == bytes;
            let (user, id) = (last.user_crc, last.user_id);
            let (last, high) = (last.last, last.high);
            format!(in alloc; "{user} {id} {last} {high} {same}")
        }
    }
}

/// Whether a text is an address as it is stored.
fn address(alloc: Global, text: &[u8]) -> Result<String, AllocError> {
    let right = address_text(text);
    format!(in alloc; "{right}")
}

#[test]
fn records_are_read_and_written(rt: HostRuntime) -> Result<(), Fail> {
    expect(rt.alloc(), &mut Records, TABLE)
}
