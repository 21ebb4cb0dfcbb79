//! System calls that move fewer bytes than asked, or are interrupted.
use folder_hosts::{WriterAt, read_full, write_full};
use std::cell::Cell;
use std::io::{self, ErrorKind};
use std::os::unix::fs::FileExt;

/// A file of five bytes that is interrupted at every other call, and moves one byte at a call.
#[derive(Drop)]
struct Choppy {
    turn: Cell<u32>,
    written: Cell<[u8; 5]>,
}

impl Choppy {
    fn is_interrupted(&self) -> bool {
        let turn = self.turn.get();
        self.turn.set(turn.wrapping_add(1));
        turn % 2 == 0
    }
}

impl FileExt for Choppy {
    fn read_at(&self, buf: &mut [u8], offset: u64) -> io::Result<usize> {
        if self.is_interrupted() {
            return Err(ErrorKind::Interrupted.into());
        }
        if offset >= 5 || buf.len() == 0 {
            return Ok(0);
        }
        buf[0] = b"abcde"[offset as usize];
        Ok(1)
    }

    fn write_at(&self, buf: &[u8], offset: u64) -> io::Result<usize> {
        if self.is_interrupted() {
            return Err(ErrorKind::Interrupted.into());
        }
        if offset >= 5 || buf.len() == 0 {
            return Ok(0);
        }
        let mut written = self.written.get();
        written[offset as usize] = buf[0];
        self.written.set(written);
        Ok(1)
    }
}

/// Whether all up to the file's end is read.
fn is_read(file: &Choppy) -> bool {
    let mut buf = [b'-'; 8];
    matches!(read_full(file, 1, &mut buf), Ok(4)) && buf == *b"bcde----"
}

/// Whether all is written that the file has room for.
fn is_written(file: &Choppy) -> bool {
    write_full(&mut WriterAt::new(file, 2), b"xyz").is_ok()
        && file.written.get() == *b"\0\0xyz"
        && write_full(&mut WriterAt::new(file, 3), b"xyz").is_err()
}

#[test]
fn short_and_interrupted_calls_go_on(rt: HostRuntime) {
    let file = Choppy {
        turn: Cell::new(0),
        written: Cell::new([0; 5]),
    };
    assert!(rt; is_read(&file) && is_written(&file));
}
