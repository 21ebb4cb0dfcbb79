//! The host over a data folder and the standard output.
ghost use Rattle.std.specs.Prelude.{◌≡◌, false};
ghost use Rattle.door_outside.specs.Cause.{HasCause};
ghost use Rattle.door_outside.specs.Disk.{silent};

use crate::data_folder::DataFolder;
use crate::transfer::write_full;
use crate::trouble::Trouble;
use door_outside::{DiskFault, FileId, Host, VoiceFault};
use std::alloc::AllocError;

/// A host whose files lie in a folder, and whose voice is the standard output. It tells nothing of what they
/// hold. Each call that fails raises one of its two counts; what kept a call on a file from being done is said
/// on standard error.
#[derive(Drop)]
pub struct FolderHost {
    rt: HostRuntime,
    folder: DataFolder,
    disk_faults: u64,
    voice_faults: u64,
}

impl FolderHost {
    /// The host of a data folder, which needn't be there, beside the folder of a shelf. Nothing is opened yet.
    /// Where one of the two lies in the other, or that can't be told, each call on a file is a fault, since a
    /// command that fills a file of the shelf could write over the board's own.
    ///
    /// The error comes where there is no memory.
    pub fn new(rt: HostRuntime, folder: &str, shelf: &str) -> Result<FolderHost, AllocError> {
        Ok(FolderHost {
            rt,
            folder: DataFolder::new(rt, folder, shelf)?,
            disk_faults: 0,
            voice_faults: 0,
        })
    }

    /// The value, or a disk fault that is told and counted.
    fn disk_answer<T: Drop>(
        &mut self,
        file: FileId,
        outcome: Result<T, Trouble>,
    ) -> Result<T, DiskFault>
        ensures only_ok { (value : T) → result ≡ Ok value → outcome ≡ Ok value }
        ensures cause { HasCause self.old.disk_faults self.new.disk_faults result }
        ensures voice { self.new.voice_faults ≡ self.old.voice_faults }
    {
        match outcome {
            Ok(value) => Ok(value),
            Err(trouble) => {
                self.folder.tell(file, &trouble);
                self.disk_faults = self.disk_faults.saturating_add(1);
                Err(DiskFault)
            }
        }
    }
}

impl Host for FolderHost {
    ghost tells = { false };

    ghost disk = { λ h. silent };

    ghost disk_faults = { λ h. h.disk_faults };

    ghost voice_faults = { λ h. h.voice_faults };

    fn length(&mut self, file: FileId) -> Result<u32, DiskFault> {
        let outcome = self.folder.length(file);
        self.disk_answer(file, outcome)
    }

    fn read_at(&mut self, file: FileId, at: u32, buf: &mut [u8]) -> Result<usize, DiskFault> {
        let outcome = self.folder.read_at(file, at, buf);
        self.disk_answer(file, outcome)
    }

    fn write_at(&mut self, file: FileId, at: u32, bytes: &[u8]) -> Result<(), DiskFault> {
        let outcome = self.folder.write_at(file, at, bytes);
        self.disk_answer(file, outcome)
    }

    fn cut(&mut self, file: FileId, len: u32) -> Result<(), DiskFault> {
        let outcome = self.folder.cut(file, len);
        self.disk_answer(file, outcome)
    }

    fn sync(&mut self, file: FileId) -> Result<(), DiskFault> {
        let outcome = self.folder.sync(file);
        self.disk_answer(file, outcome)
    }

    fn say(&mut self, bytes: &[u8]) -> Result<(), VoiceFault> {
        match write_full(&mut self.rt.stdout(), bytes) {
            Ok(()) => Ok(()),
            Err(_) => {
                self.voice_faults = self.voice_faults.saturating_add(1);
                Err(VoiceFault)
            }
        }
    }
}
