//! The shelf over a folder.
ghost use Rattle.std.specs.Prelude.{◌≡◌, false, length, IfOk};
ghost use Rattle.std.specs.FinMap as map;
ghost use Rattle.door_outside.specs.Cause.{HasCause};
ghost use Rattle.door_outside.specs.Shelf.{PieceWithin};

use crate::identity::Identity;
use crate::opening::{above_standard, expect_regular};
use crate::own_files::OwnFiles;
use crate::transfer::{read_full, write_full};
use door_outside::{Piece, Shelf, ShelfFault, ShelfName};
use std::alloc::AllocError;
use std::fs::{self, File, Metadata, OpenOptions};
use std::io::{self, ErrorKind};
use std::os::unix::fs::MetadataExt;
use std::str;

/// The longest shelf name in bytes: four parts of 32, and three `/`.
const LONGEST_NAME: usize = 131;

/// A shelf whose files lie in a folder, each at the path that its name is. It tells nothing of what they
/// hold. Each call that fails raises its count, and says on standard error what failed.
#[derive(Drop)]
pub struct FolderShelf {
    rt: HostRuntime,
    /// The files of the board, which lie elsewhere.
    own_files: OwnFiles,
    /// The folder's path and a `/`, and behind it the name of the last call.
    path: Vec<u8>,
    folder_len: usize,
    /// The file of that name, while it is read piece by piece.
    reading: Option<File>,
    /// The file of that name, while it is filled.
    filling: Option<File>,
    faults: u64,
}

/// Fails unless the path is a regular file's, or nothing is there.
fn look_at(rt: &HostRuntime, path: &str) -> io::Result<()> {
    match fs::metadata(rt, path) {
        Ok(found) => expect_regular(&found),
        Err(error) if error.kind() == ErrorKind::NotFound => Ok(()),
        Err(error) => Err(error),
    }
}

/// The regular file of that path, opened to be read, if it is there. It is looked at before, since the open of a pipe
/// would wait for its writer, and again when it is open, since another could have come to be there meanwhile.
fn open_to_read(rt: &HostRuntime, path: &str) -> io::Result<Option<File>> {
    look_at(rt, path)?;
    match fs::open(rt, path) {
        Ok(file) => {
            let file = above_standard(file)?;
            expect_stored(rt, &file.metadata()?)?;
            Ok(Some(file))
        }
        Err(error) if error.kind() == ErrorKind::NotFound => Ok(None),
        Err(error) => Err(error),
    }
}

/// Fails unless a regular file was found whose bytes are stored. A file of `/proc` says that it has none, and makes them up
/// as it is read, or waits for them.
fn expect_stored(rt: &HostRuntime, found: &Metadata) -> io::Result<()> {
    expect_regular(found)?;
    if found.len() > 0 {
        return Ok(());
    }
    match fs::metadata(rt, "/proc") {
        Ok(made_up) if made_up.dev() == found.dev() => Err(ErrorKind::Unsupported.into()),
        _ => Ok(()),
    }
}

/// Opens a file, and makes the folders that it lies in where they are missing.
fn open_in_folders(rt: &HostRuntime, path: &str, options: &OpenOptions) -> io::Result<File> {
    match options.open(rt, path) {
        Err(error) if error.kind() == ErrorKind::NotFound => {
            if let Some((folder, _)) = path.rsplit_once('/') {
                fs::create_dir_all(rt, folder)?;
            }
            options.open(rt, path)
        }
        outcome => outcome,
    }
}

impl FolderShelf {
    /// The shelf of a folder, which needn't be there, beside a data folder, whose files no name of the shelf may reach to
    /// write.
    pub fn new(rt: HostRuntime, data: &str, folder: &str) -> Result<FolderShelf, AllocError> {
        let own_files = OwnFiles::new(&rt, data)?;
        let longest = folder.len().saturating_add(LONGEST_NAME + 1);
        let mut path = Vec::with_capacity(rt.alloc(), longest)?;
        path.extend_from_slice(folder.as_bytes())?;
        path.push(b'/')?;
        let folder_len = path.len();
        Ok(FolderShelf {
            rt,
            own_files,
            path,
            folder_len,
            reading: None,
            filling: None,
            faults: 0,
        })
    }

    /// Puts the name behind the folder's path, and lets go of the file that was read or filled.
    fn turn_to(&mut self, name: &ShelfName) -> io::Result<()>
        ensures { self.new.faults ≡ self.old.faults }
    {
        self.reading = None;
        self.filling = None;
        self.path.truncate(self.folder_len);
        self.path.extend_from_slice(name.as_slice())?;
        Ok(())
    }

    /// The path of the last name.
    fn path(&self) -> io::Result<&str> {
        match str::from_utf8(&self.path) {
            Ok(path) => Ok(path),
            Err(_) => Err(ErrorKind::InvalidFilename.into()),
        }
    }

    /// Whether the last name was this one.
    fn is_at(&self, name: &ShelfName) -> bool {
        match self.path.get(self.folder_len..) {
            Some(last) => last == name.as_slice(),
            None => false,
        }
    }

    /// Opens the file of that name, if it is there. The pieces of a file past its first come from the file
    /// that gave the first.
    fn open_piece(&mut self, name: &ShelfName, at: u32) -> io::Result<()>
        ensures { self.new.faults ≡ self.old.faults }
    {
        if at > 0 && self.reading.is_some() && self.is_at(name) {
            return Ok(());
        }
        self.turn_to(name)?;
        self.reading = open_to_read(&self.rt, self.path()?)?;
        Ok(())
    }

    fn try_piece(&mut self, name: &ShelfName, at: u32, buf: &mut [u8]) -> io::Result<Piece>
        ensures bound { IfOk result (PieceWithin (length buf.old)) }
        ensures faults { self.new.faults ≡ self.old.faults }
    {
        self.open_piece(name, at)?;
        match &self.reading {
            None => Ok(Piece::Missing),
            Some(open) => Ok(Piece::Count(read_full(open, u64::from(at), buf)?)),
        }
    }

    /// Opens the file of the last name by these options, which ask to read it too, since the open of a pipe doesn't wait
    /// then. Before anything of it is changed, it is told apart from the board's own files.
    fn open_to_fill(&self, options: &OpenOptions) -> io::Result<File> {
        let path = self.path()?;
        look_at(&self.rt, path)?;
        self.own_files
            .expect_outside(&self.rt, path, self.folder_len)?;
        let file = above_standard(open_in_folders(&self.rt, path, options)?)?;
        let found = file.metadata()?;
        expect_stored(&self.rt, &found)?;
        self.own_files.expect_other(&self.rt, Identity::of(&found))?;
        Ok(file)
    }

    fn try_begin(&mut self, name: &ShelfName) -> io::Result<()>
        ensures { self.new.faults ≡ self.old.faults }
    {
        self.turn_to(name)?;
        let mut options = OpenOptions::new();
        options.read(true).write(true).create(true);
        let file = self.open_to_fill(&options)?;
        file.set_len(0)?;
        self.filling = Some(file);
        Ok(())
    }

    /// Opens the file of that name to add to its end. What follows the beginning of a file goes into the file that was
    /// made empty.
    fn open_end(&mut self, name: &ShelfName) -> io::Result<()>
        ensures { self.new.faults ≡ self.old.faults }
    {
        if self.filling.is_some() && self.is_at(name) {
            return Ok(());
        }
        self.turn_to(name)?;
        let mut options = OpenOptions::new();
        options.read(true).append(true).create(true);
        self.filling = Some(self.open_to_fill(&options)?);
        Ok(())
    }

    fn try_append(&mut self, name: &ShelfName, bytes: &[u8]) -> io::Result<()>
        ensures { self.new.faults ≡ self.old.faults }
    {
        self.open_end(name)?;
        match &mut self.filling {
            None => Err(ErrorKind::NotFound.into()),
            Some(file) => write_full(file, bytes),
        }
    }

    /// Says on standard error what a call on the last name failed by. Where standard error is closed too, the
    /// status alone tells.
    fn tell(&self, error: &io::Error) {
        let path = self.path().unwrap_or("SHELF");
        let _ = eprintln!(self.rt; "{path}: {error}");
    }

    /// The value, or a fault that is told and counted.
    fn answer<T: Drop>(&mut self, outcome: io::Result<T>) -> Result<T, ShelfFault>
        ensures only_ok { (value : T) → result ≡ Ok value → outcome ≡ Ok value }
        ensures cause { HasCause self.old.faults self.new.faults result }
    {
        match outcome {
            Ok(value) => Ok(value),
            Err(error) => {
                self.tell(&error);
                self.faults = self.faults.saturating_add(1);
                Err(ShelfFault)
            }
        }
    }
}

impl Shelf for FolderShelf {
    ghost tells = { false };

    ghost files = { λ s. map.empty };

    ghost faults = { λ s. s.faults };

    fn piece(&mut self, name: &ShelfName, at: u32, buf: &mut [u8]) -> Result<Piece, ShelfFault> {
        let outcome = self.try_piece(name, at, buf);
        self.answer(outcome)
    }

    fn begin(&mut self, name: &ShelfName) -> Result<(), ShelfFault> {
        let outcome = self.try_begin(name);
        self.answer(outcome)
    }

    fn append(&mut self, name: &ShelfName, bytes: &[u8]) -> Result<(), ShelfFault> {
        let outcome = self.try_append(name, bytes);
        self.answer(outcome)
    }
}
