use crate::arguments::Arguments;
use crate::fault_line::fault_line;
use mail_cli::Status;
use std::env::FillError;
use std::rt::Env;
use std::test::Fail;

/// A program's name and words, as the system hands them over.
#[derive(Drop)]
struct Started {
    words: [&'static [u8]; 5],
    count: usize,
}

impl Env for Started {
    fn arg(&self, i: usize, buf: &mut [u8]) -> Result<usize, FillError> {
        if i >= self.count || i >= 5 {
            return Err(FillError::NotPresent);
        }
        let word = self.words[i];
        if word.len() > buf.len() {
            return Err(FillError::TooLong);
        }
        buf[..word.len()].copy_from_slice(word);
        Ok(word.len())
    }

    fn var(&self, _name: &str, _buf: &mut [u8]) -> Result<usize, FillError> {
        Err(FillError::NotPresent)
    }

    fn var_at(&self, _i: usize, _buf: &mut [u8]) -> Result<usize, FillError> {
        Err(FillError::NotPresent)
    }
}

#[test]
fn three_words_at_least_are_taken(rt: HostRuntime) -> Result<(), Fail> {
    let cases = [
        (b"board".as_slice(), b"shelf".as_slice(), 5, true),
        (b"board", b"shelf", 4, true),
        (b"board", b"shelf", 3, false),
        (b"board", b"shelf", 1, false),
        (b"", b"shelf", 5, false),
        (b"board", b"", 5, false),
        (b"\xE3", b"shelf", 5, false),
    ];
    for (data, shelf, count, is_taken) in cases {
        let words = [b"qwkdoor".as_slice(), data, shelf, b"list", b"\xE3"];
        let started = Started { words, count };
        match Arguments::read(rt.alloc(), &started)? {
            None => assert!(rt; !is_taken, "{count}"),
            Some(taken) => {
                assert!(rt; is_taken, "{count}");
                assert_eq!(rt; taken.data.as_str(), "board");
                assert_eq!(rt; taken.shelf.as_str(), "shelf");
            }
        }
    }
    Ok(())
}

#[test]
fn faults_have_their_lines(rt: HostRuntime) {
    let lines = [
        (Status::Damaged, None),
        (Status::DiskFault, Some("disk fault")),
        (Status::ShelfFault, Some("shelf fault")),
        (Status::VoiceFault, Some("output fault")),
        (Status::OutOfMemory, Some("out of memory")),
    ];
    for (status, line) in lines {
        assert_eq!(rt; fault_line(status), line);
    }
}
