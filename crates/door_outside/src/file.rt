ghost use Rattle.std.specs.Prelude.{◌≡◌, ℕ, ◌<◌, ◌↔◌, IfSome, IsSome};
ghost use Rattle.door_outside.specs.File.{file_count, ledger_file, journal_file, jhr_file, jdt_file, jdx_file, jlr_file};

use std::marker::Model;

/// How many files a host has. Their numbers are those below it.
pub const FILE_COUNT: usize = 258;

/// The number of a file of a host, from 0 to 257. 0 is the ledger and 1 the journal. The conference in
/// place k, from 0 to 63, has its JHR in 2 + 4k, and then its JDT, its JDX and its JLR.
#[derive(Clone, Copy, Debug, PartialEq, Eq)]
pub struct FileId {
    number: u16,
}

impl Model for FileId {
    ghost Value = { ℕ };

    ghost view = { λ s. s.number };

    ghost invariant = { λ s. s.number < 258 };

    ghost inverse = { λ n. record { number = n } };
}

impl FileId {
    /// The file of that number, or None from 258 on.
    pub fn new(number: u16) -> Option<FileId>
        ensures value { IfSome result (λ file. file ≡ number) }
        ensures known { IsSome result ↔ (number < file_count) }
    {
        if usize::from(number) < FILE_COUNT {
            Some(FileId { number })
        } else {
            None
        }
    }

    /// The ledger.
    pub fn ledger() -> FileId
        ensures { result ≡ ledger_file }
    {
        FileId { number: 0 }
    }

    /// The journal.
    pub fn journal() -> FileId
        ensures { result ≡ journal_file }
    {
        FileId { number: 1 }
    }

    /// The .JHR of the conference in a place from 0 to 63: its header, and those of its messages.
    pub fn jhr(place: u8) -> FileId
        requires { place < 64 }
        ensures { result ≡ jhr_file place }
    {
        FileId {
            number: 2 + 4 * u16::from(place),
        }
    }

    /// Its .JDT: the bodies.
    pub fn jdt(place: u8) -> FileId
        requires { place < 64 }
        ensures { result ≡ jdt_file place }
    {
        FileId {
            number: 3 + 4 * u16::from(place),
        }
    }

    /// Its .JDX: the index.
    pub fn jdx(place: u8) -> FileId
        requires { place < 64 }
        ensures { result ≡ jdx_file place }
    {
        FileId {
            number: 4 + 4 * u16::from(place),
        }
    }

    /// Its .JLR: the last-read pointers.
    pub fn jlr(place: u8) -> FileId
        requires { place < 64 }
        ensures { result ≡ jlr_file place }
    {
        FileId {
            number: 5 + 4 * u16::from(place),
        }
    }

    /// Its number.
    pub fn number(&self) -> u16
        ensures value { result ≡ self.now }
        ensures known { result < file_count }
    {
        self.number
    }
}
