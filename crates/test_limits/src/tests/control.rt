//! CONTROL.DAT of as many conferences as it may have, and as long as it may be.
use super::numbered::written_out;
use qwk_control::{Control, read_control, write_control};
use std::alloc::Global;
use test_runs::Miss;

/// A file of 65,536 conferences.
const FILE: &str =
    "Test Board\r\nSpringfield\r\n555-0100\r\nSam Sysop\r\n12345,TESTBBS\r\n09-09-2001,01:46:40\r\nANN LEE\r\n\r\n0\r\n0\r\n65535\r\n[[0 65535 #\r\nNAME\r\n]]WELCOME\r\nNEWS\r\nGOODBYE\r\n";

/// The transcript of a packet with that file, of another whose file has a conference more, and of a message for the last
/// conference.
pub const MANY: [&str; 3] = ["\n* put big/CONTROL.DAT ", FILE, PACKETS];

const PACKETS: &str = r#"
* blocks big/MESSAGES.DAT
Produced by qwkdoor, packet 1
* put more/CONTROL.DAT Test Board\r\nSpringfield\r\n555-0100\r\nSam Sysop\r\n12345,TESTBBS\r\n09-09-2001,01:46:40\r\nANN LEE\r\n\r\n0\r\n0\r\n65536\r\n[[0 65535 #\r\nNAME\r\n]]0\r\nNAME\r\n
* put sheet From: Ann Lee\nTo: Bob Ray\nSubject: Hello\n\nHi\n.\n
> read big
board Test Board
user ANN LEE
0 messages
> compose big 65535 sheet R.MSG
composed 1, 1 in R.MSG
> compose big 65536 sheet R.MSG
refused noconference
> read more
refused control number 11
* packet R.MSG
TESTBBS
 65535  09-09-0101:46Bob Ray                  ANN LEE                  Hello                                0       2     \xE1\xFF\xFF\x01\0
Hi\xE3
"#;

/// Looks whether what was read of a file is written as it.
fn expect_written(alloc: Global, control: &Control, file: &[u8]) -> Result<(), Miss> {
    if !control.writable() {
        return Err(Miss::Broken("it can't be written"));
    }
    let text = write_control(alloc, control)?;
    if text.as_slice() == file {
        Ok(())
    } else {
        Err(Miss::Broken("it is written otherwise"))
    }
}

/// Looks whether a file that is read is written so.
fn expect_read(alloc: Global, file: &[u8]) -> Result<(), Miss> {
    match read_control(alloc, file) {
        Ok(control) => expect_written(alloc, &control, file),
        Err(_) => Err(Miss::Broken("it isn't read")),
    }
}

/// Looks whether the file of 65,536 conferences is read, and written so.
pub fn expect_many(alloc: Global) -> Result<(), Miss> {
    let file = written_out(alloc, &[FILE])?;
    expect_read(alloc, file.as_bytes())
}

/// A file with lines behind the last that is looked at, as long as it may be, and then a byte longer.
pub const LONG: &str = r#"
* folders
* add out/CONTROL.DAT 4194145 \n
* length out/CONTROL.DAT 4194304
> read out
board Test Board
user ANN LEE
1 0/1 public BOB RAY > ALL: Hello [1]
1 messages
* add out/CONTROL.DAT 1 \n
> read out
refused toolarge out/CONTROL.DAT
"#;
