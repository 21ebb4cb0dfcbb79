//! A host of short files that tells nothing of them.
ghost use Rattle.std.specs.Prelude.{◌≤◌, ◌<◌, false, IfOk};
ghost use Rattle.door_outside.specs.Cause.{HasCause, Rose};
ghost use Rattle.door_outside.specs.Disk.{silent};

use door_outside::{DiskFault, FileId, Host, VoiceFault};

/// How many bytes a file of a small host has room for.
const ROOM: usize = 64;

/// How many files it has.
const FILES: usize = 4;

/// A host of four short files that tells nothing of them. After so many calls every call fails.
#[derive(Drop)]
pub(crate) struct SmallHost {
    files: [[u8; ROOM]; FILES],
    lens: [u8; FILES],
    left: u32,
    disk_faults: u64,
    /// The journal as it was at the last sync with an open gate.
    open: [u8; ROOM],
    /// How many bytes reads gave.
    read: u64,
    /// How many syncs of files but the journal there were.
    synced: u64,
    /// Whether the length of the journal can't be told.
    is_long: bool,
    /// How many bytes at its end a read of more than a header loses.
    lost: usize,
}

impl SmallHost {
    pub(crate) fn new() -> SmallHost {
        SmallHost {
            files: [[0; ROOM]; FILES],
            lens: [0; FILES],
            left: 1000,
            disk_faults: 0,
            open: [0; ROOM],
            read: 0,
            synced: 0,
            is_long: false,
            lost: 0,
        }
    }

    /// One whose journal has no length that can be told, as one of 2^31 bytes and more.
    pub(crate) fn long() -> SmallHost {
        let mut host = SmallHost::new();
        host.is_long = true;
        host
    }

    /// One whose reads of more than 13 bytes lose so many at their end.
    pub(crate) fn losing(lost: usize) -> SmallHost {
        let mut host = SmallHost::new();
        host.lost = lost;
        host
    }

    /// How many syncs of its data files there were.
    pub(crate) fn synced(&self) -> u64 {
        self.synced
    }

    /// How many bytes its reads gave.
    pub(crate) fn read(&self) -> u64 {
        self.read
    }

    /// Counts a fault.
    fn fail(&mut self) -> DiskFault
        ensures rose { Rose self.old.disk_faults self.new.disk_faults }
        ensures later { self.old.disk_faults ≤ self.new.disk_faults }
    {
        self.disk_faults = self.disk_faults.saturating_add(1);
        DiskFault
    }

    /// How many of so many bytes a read into a buffer with so much room gives.
    fn given(&self, room: usize, count: usize) -> usize
        ensures { result ≤ count }
    {
        if room > 13 {
            count - count.min(self.lost)
        } else {
            count
        }
    }

    /// The place of a call's file, where the call doesn't fail.
    fn place(&mut self, file: FileId) -> Result<usize, DiskFault>
        ensures known { IfOk result (λ place. place < FILES) }
        ensures cause { HasCause self.old.disk_faults self.new.disk_faults result }
    {
        let place = file.number() as usize;
        if place >= FILES || self.left == 0 {
            return Err(self.fail());
        }
        self.left -= 1;
        Ok(place)
    }

    /// The bytes of a file.
    pub(crate) fn content(&self, file: FileId) -> Option<&[u8]> {
        let place = usize::from(file.number());
        let len = usize::from(*self.lens.get(place)?);
        self.files.get(place)?.get(..len)
    }

    /// The journal as it was at the last sync with an open gate.
    pub(crate) fn open_journal(&self) -> &[u8] {
        self.open.as_slice()
    }
}

impl Host for SmallHost {
    ghost tells = { false };

    ghost disk = { λ _. silent };

    ghost disk_faults = { λ s. s.disk_faults };

    ghost voice_faults = { λ _. 0 };

    fn length(&mut self, file: FileId) -> Result<u32, DiskFault> {
        let place = self.place(file)?;
        if self.is_long && place == 1 {
            return Err(self.fail());
        }
        Ok(self.lens[place] as u32)
    }

    fn read_at(&mut self, file: FileId, at: u32, buf: &mut [u8]) -> Result<usize, DiskFault> {
        let place = self.place(file)?;
        let end = ROOM.min(self.lens[place] as usize);
        let from = end.min(at as usize);
        let count = self.given(buf.len(), buf.len().min(end - from));
        self.read = self.read.saturating_add(count as u64);
        buf[..count].copy_from_slice(&self.files[place][from..from + count]);
        Ok(count)
    }

    fn write_at(&mut self, file: FileId, at: u32, bytes: &[u8]) -> Result<(), DiskFault> {
        let place = self.place(file)?;
        let from = at as usize;
        if from + bytes.len() > ROOM {
            return Err(self.fail());
        }
        let end = from + bytes.len();
        self.files[place][from..end].copy_from_slice(bytes);
        self.lens[place] = self.lens[place].max(end as u8);
        Ok(())
    }

    fn cut(&mut self, file: FileId, len: u32) -> Result<(), DiskFault> {
        let place = self.place(file)?;
        if len < self.lens[place] as u32 {
            self.lens[place] = len as u8;
        }
        Ok(())
    }

    fn sync(&mut self, file: FileId) -> Result<(), DiskFault> {
        let place = self.place(file)?;
        if place != 1 {
            self.synced = self.synced.saturating_add(1);
        }
        if place == 1 && self.files[1][0] == b'O' {
            self.open = self.files[1];
        }
        Ok(())
    }

    fn say(&mut self, _bytes: &[u8]) -> Result<(), VoiceFault> {
        Ok(())
    }
}
