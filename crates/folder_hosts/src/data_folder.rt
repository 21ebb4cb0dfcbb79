//! The data files as they lie in a folder.
ghost use Rattle.std.specs.Prelude.{◌≡◌, ◌<◌, ◌≤◌, ◌^◌, length, IfOk};

use crate::boot::{has_mark, keep_mark};
use crate::data_paths::{FILE_COUNT, data_path};
use crate::named_files::{NamedFiles, named_files};
use crate::opening::{
    is_named, make_folder, open_above, open_found, open_locked, open_new, open_or_make,
};
use crate::placements::Placement;
use crate::transfer::{WriterAt, read_full, write_full};
use crate::trouble::{Part, Trouble};
use door_outside::FileId;
use std::alloc::AllocError;
use std::fs::{self, File};
use std::io::{self, ErrorKind};

/// Whether this run has the folder to itself.
#[derive(Drop)]
enum Hold {
    /// No file was asked for yet.
    Untried,
    /// The folder was missing when it was first asked for, so every file is empty until this run writes.
    Missing,
    /// This run holds the lock until its end.
    Locked(File),
}

#[derive(Drop)]
enum Handle {
    Closed,
    Reading(File),
    Writing(File),
}

#[derive(Drop)]
struct DataFile {
    path: String,
    handle: Handle,
    /// How many bytes this run knows that the file has, at least.
    known: u64,
}

/// The 258 files of a board. A file stays open from its first use on, so that a sync goes by the handle that
/// wrote, and every path is made at the start, so that no later call takes memory for one.
#[derive(Drop)]
pub struct DataFolder {
    rt: HostRuntime,
    folder: String,
    parent: String,
    lock_path: String,
    /// The folder's path and a `/`.
    inside: String,
    /// How it lies to the shelf's folder.
    placement: Placement,
    hold: Hold,
    files: Vec<DataFile>,
    /// Which of them may have been there when the lock was taken, or were made since.
    named: NamedFiles,
    /// Whether the names in the folder, and its own, were put on the disk since the last was made.
    names_synced: bool,
    ghost all: { length files.items ≡ 258 },
}

/// The length of a file below 2^31 bytes.
fn short_length(file: &File) -> io::Result<u32>
    ensures { IfOk result (λ len. len < 2 ^ 31) }
{
    let len = file.metadata()?.len();
    if len < 0x8000_0000 {
        Ok(len as u32)
    } else {
        Err(ErrorKind::FileTooLarge.into())
    }
}

/// What it means that the lock can't be taken. Where its file came to be there while it was made, another run has begun.
fn of_lock(error: io::Error) -> Trouble {
    match error.kind() {
        ErrorKind::WouldBlock | ErrorKind::AlreadyExists => Trouble::Held,
        _ => Trouble::Call(Part::Lock, error),
    }
}

/// What it means that a call on the folder failed.
fn of_folder(error: io::Error) -> Trouble {
    Trouble::Call(Part::Folder, error)
}

impl DataFolder {
    /// The files under a folder, which needn't be there, beside the folder of a shelf. Nothing is opened yet.
    pub fn new(rt: HostRuntime, folder: &str, shelf: &str) -> Result<DataFolder, AllocError> {
        let alloc = rt.alloc();
        let placement = Placement::of(&rt, folder, shelf)?;
        let mut files = Vec::new(alloc);
        for number in 0..258u16 {
            let path = data_path(alloc, folder, number)?;
            files.push(DataFile {
                path,
                handle: Handle::Closed,
                known: 0,
            })?;
        }
        let parent = format!(in alloc; "{folder}/..")?;
        let lock_path = format!(in alloc; "{folder}/LOCK")?;
        let inside = format!(in alloc; "{folder}/")?;
        let folder = String::from_str(alloc, folder)?;
        Ok(DataFolder {
            rt,
            folder,
            parent,
            lock_path,
            inside,
            placement,
            hold: Hold::Untried,
            files,
            named: [false; FILE_COUNT],
            names_synced: false,
        })
    }

    /// The file's length in bytes. A length of 2^31 or more is an error, and so is one below what this run knows
    /// of.
    pub fn length(&mut self, file: FileId) -> Result<u32, Trouble>
        ensures { IfOk result (λ len. len < 2 ^ 31) }
    {
        self.open_to_read(file)?;
        let len = match self.opened(file) {
            None => 0,
            Some(open) => short_length(open)?,
        };
        let known = &mut self.files[usize::from(file.number())].known;
        if u64::from(len) < *known {
            return Err(Trouble::Shorter);
        }
        *known = u64::from(len);
        Ok(len)
    }

    /// Fills the buffer from a place on, up to the file's end. Where that comes before bytes that this run knows
    /// of, the file has lost them, and none is made up.
    pub fn read_at(&mut self, file: FileId, at: u32, buf: &mut [u8]) -> Result<usize, Trouble>
        ensures { IfOk result (λ count. count ≤ length buf.old) }
    {
        self.open_to_read(file)?;
        let at = u64::from(at);
        let count = match self.opened(file) {
            None => 0,
            Some(open) => read_full(open, at, buf)?,
        };
        let end = at.saturating_add(count as u64);
        let known = &mut self.files[usize::from(file.number())].known;
        if count < buf.len() && end < *known {
            return Err(Trouble::Shorter);
        }
        if count > 0 {
            *known = end.max(*known);
        }
        Ok(count)
    }

    /// Puts the bytes at a place. A gap before them reads as zeros.
    pub fn write_at(&mut self, file: FileId, at: u32, bytes: &[u8]) -> Result<(), Trouble> {
        if bytes.is_empty() {
            return self.lengthen(file, at);
        }
        self.open_to_write(file)?;
        match self.opened(file) {
            None => Err(Trouble::from(io::Error::from(ErrorKind::NotFound))),
            Some(open) => Ok(write_full(&mut WriterAt::new(open, u64::from(at)), bytes)?),
        }
    }

    /// A write of no bytes still fills the gap before its place, which the system's write doesn't.
    fn lengthen(&mut self, file: FileId, at: u32) -> Result<(), Trouble> {
        if self.length(file)? >= at {
            return Ok(());
        }
        self.set_len(file, at)
    }

    /// Shortens a file that is longer.
    pub fn cut(&mut self, file: FileId, len: u32) -> Result<(), Trouble> {
        if self.length(file)? <= len {
            return Ok(());
        }
        self.set_len(file, len)
    }

    fn set_len(&mut self, file: FileId, len: u32) -> Result<(), Trouble> {
        self.open_to_write(file)?;
        match self.opened(file) {
            None => return Err(Trouble::from(io::Error::from(ErrorKind::NotFound))),
            Some(open) => open.set_len(u64::from(len))?,
        }
        self.files[usize::from(file.number())].known = u64::from(len);
        Ok(())
    }

    /// Puts the file's bytes, its length and its name on the disk. Where a sync fails, no run goes on until the
    /// machine is started anew.
    pub fn sync(&mut self, file: FileId) -> Result<(), Trouble> {
        if !self.is_there()? {
            return Ok(());
        }
        self.open_to_read(file)?;
        if let Some(open) = self.opened(file) {
            self.sync_part(Part::Asked, open)?;
        }
        self.sync_names()
    }

    /// Puts the names in the folder, and its own, on the disk. An open that fails is a fault that the next run may get
    /// over; it is no sync that failed.
    fn sync_names(&mut self) -> Result<(), Trouble> {
        if self.names_synced {
            return Ok(());
        }
        let folder = fs::open(&self.rt, self.folder.as_str()).map_err(of_folder)?;
        self.sync_part(Part::Folder, &folder)?;
        match open_above(&self.rt, self.parent.as_str()) {
            Ok(Some(above)) => self.sync_part(Part::Above, &above)?,
            Ok(None) => {}
            Err(error) => return Err(Trouble::Call(Part::Above, error)),
        }
        self.names_synced = true;
        Ok(())
    }

    /// Puts on the disk what is open as a part of the folder. Where that fails, the lock's file keeps it.
    fn sync_part(&self, part: Part, open: &File) -> Result<(), Trouble> {
        match open.sync_all() {
            Ok(()) => Ok(()),
            Err(error) => Err(Trouble::Sync(part, error, self.keep_failure())),
        }
    }

    /// Keeps in the lock's file that a sync failed since the machine's last start, and answers whether that is kept.
    /// Where it isn't, what is said on standard error has to do.
    fn keep_failure(&self) -> bool {
        match &self.hold {
            Hold::Locked(lock) => matches!(keep_mark(&self.rt, lock), Ok(true)),
            _ => false,
        }
    }

    /// Locks the folder at the first call of a run, and answers whether it was there then.
    fn is_there(&mut self) -> Result<bool, Trouble> {
        match self.hold {
            Hold::Locked(_) => return Ok(true),
            Hold::Missing => return Ok(false),
            Hold::Untried => {}
        }
        match self.placement {
            Placement::Apart => self.take_hold(),
            Placement::Shared => Err(Trouble::Shared),
            Placement::Unknown(kind) => Err(Trouble::Unplaced(kind)),
        }
    }

    /// Locks the folder if it is there, and answers whether it is. Only where nothing has its name there is no board: a
    /// lock that isn't found in a folder that is there is a fault.
    fn take_hold(&mut self) -> Result<bool, Trouble> {
        if !is_named(&self.rt, self.folder.as_str()).map_err(of_folder)? {
            self.hold = Hold::Missing;
            return Ok(false);
        }
        let lock = open_locked(&self.rt, self.lock_path.as_str()).map_err(of_lock)?;
        match has_mark(&self.rt, &lock) {
            Ok(false) => {}
            Ok(true) => return Err(Trouble::Unsynced),
            Err(error) => return Err(Trouble::Call(Part::Lock, error)),
        }
        self.named = self.look_through()?;
        self.hold = Hold::Locked(lock);
        Ok(true)
    }

    /// Which files the folder has.
    fn look_through(&self) -> Result<NamedFiles, Trouble> {
        named_files(&self.rt, self.inside.as_str()).map_err(of_folder)
    }

    /// Makes the folder where it was missing, and locks it.
    fn make_there(&mut self) -> Result<(), Trouble> {
        if self.is_there()? {
            return Ok(());
        }
        make_folder(&self.rt, self.folder.as_str()).map_err(of_folder)?;
        let lock = open_locked(&self.rt, self.lock_path.as_str()).map_err(of_lock)?;
        if self.look_through()?.contains(&true) {
            // Another run made them since this one found nothing.
            return Err(Trouble::Held);
        }
        self.hold = Hold::Locked(lock);
        Ok(())
    }

    /// Says on standard error what kept a call on a file from being done.
    pub fn tell(&self, file: FileId, trouble: &Trouble) {
        let path = match trouble.part() {
            Part::Asked => self.path_of(usize::from(file.number())),
            Part::Beside(number) => self.path_of(number),
            Part::Folder => self.folder.as_str(),
            Part::Above => self.parent.as_str(),
            Part::Lock => self.lock_path.as_str(),
        };
        trouble.tell(&self.rt, self.folder.as_str(), path);
    }

    /// The path of the file of that number.
    fn path_of(&self, number: usize) -> &str {
        match self.files.get(number) {
            Some(file) => file.path.as_str(),
            None => self.folder.as_str(),
        }
    }

    /// The open file, if it is open.
    fn opened(&self, file: FileId) -> Option<&File> {
        match &self.files[usize::from(file.number())].handle {
            Handle::Closed => None,
            Handle::Reading(open) | Handle::Writing(open) => Some(open),
        }
    }

    /// Opens the file to be read, if it is there and isn't open. One that wasn't there when the lock was taken, and that
    /// this run didn't make, isn't asked for.
    fn open_to_read(&mut self, file: FileId) -> Result<(), Trouble> {
        if !self.is_there()? {
            return Ok(());
        }
        let number = usize::from(file.number());
        if self.named[number] && self.opened(file).is_none() {
            if let Some(open) = open_found(&self.rt, self.files[number].path.as_str())? {
                self.files[number].handle = Handle::Reading(open);
            }
        }
        Ok(())
    }

    /// Opens the file to be written, and with it the other files of its conference, since other tools refuse
    /// a message base of which one is missing.
    fn open_to_write(&mut self, file: FileId) -> Result<(), Trouble> {
        let number = usize::from(file.number());
        if let Handle::Writing(_) = self.files[number].handle {
            return Ok(());
        }
        self.make_there()?;
        if number < 2 {
            return self.open_one_to_write(number);
        }
        let place = (number - 2) / 4;
        for part in 0..4usize {
            self.open_one_to_write(2 + 4 * place + part)?;
        }
        Ok(())
    }

    /// Opens a file to be read and written, or makes it, and says whether it was made. Where it wasn't there when the lock was
    /// taken, it fails where something has come to have its name since.
    fn open_or_make(&self, number: usize) -> io::Result<(File, bool)>
        requires { number < 258 }
    {
        let path = self.files[number].path.as_str();
        if self.named[number] {
            open_or_make(&self.rt, path)
        } else {
            Ok((open_new(&self.rt, path)?, true))
        }
    }

    /// Opens one file to be written, and makes it where it is missing.
    fn open_one_to_write(&mut self, number: usize) -> Result<(), Trouble>
        requires { number < 258 }
    {
        if let Handle::Writing(_) = self.files[number].handle {
            return Ok(());
        }
        let (open, is_new) = match self.open_or_make(number) {
            Ok(opened) => opened,
            Err(error) => return Err(Trouble::Call(Part::Beside(number), error)),
        };
        if is_new {
            self.named[number] = true;
            self.names_synced = false;
        }
        self.files[number].handle = Handle::Writing(open);
        Ok(())
    }
}
