ghost use Rattle.std.specs.Prelude.{◌≡◌, ℕ, ◌+◌, ◌-◌, ◌<◌, ◌≤◌, ◌^◌, Bool, ◌++◌, length, take, min, IfOk, OnOk, IsTrue};
ghost use Rattle.door_outside.specs.Cause.{HasCause};
ghost use Rattle.door_outside.specs.Disk.{Disk, Image, Now, as_read, Passes, InFile, Same, Torn, Cut, Says, HoldsBytes, Unchanged, written, read_count, read_into};

use crate::fault::{DiskFault, VoiceFault};
use crate::file::FileId;

/// A disk of 258 files that a crash may tear, and a voice. The clauses on what the files hold stand behind
/// `tells`; those on counts of faults hold for every host.
///
/// Between two successful syncs of a file each range that was written may hold any bytes after a crash,
/// and so may everything from the file's shortest length since the first of them on. Its length is any
/// between the shortest and the longest since then. Other bytes stay. What was said stays said.
pub trait Host {
    /// Whether hosts of this type tell what they hold.
    ghost tells: { Bool };

    /// What the host holds, where it tells it.
    ghost disk: { Self → Disk };

    /// How many file calls failed. It never falls.
    ghost disk_faults: { Self → ℕ };

    /// How many calls of `say` failed. It never falls.
    ghost voice_faults: { Self → ℕ };

    /// The length of the file in bytes, below 2^31. A file that was never written is empty.
    fn length(&mut self, file: FileId) -> Result<u32, DiskFault>
        ensures bound { IfOk result (λ len. len < 2 ^ 31) }
        ensures value { IsTrue tells → IfOk result (λ len. len ≡ length ((disk self.old).files file)) }
        ensures unchanged { IsTrue tells → Unchanged (disk self.old) (disk self.new) }
        ensures cause { HasCause (disk_faults self.old) (disk_faults self.new) result }
        ensures voice { voice_faults self.new ≡ voice_faults self.old };

    /// Fills the buffer from the byte at a place, and answers how many bytes it gave: as many as the buffer
    /// holds and the file has from there.
    fn read_at(&mut self, file: FileId, at: u32, buf: &mut [u8]) -> Result<usize, DiskFault>
        ensures bound { IfOk result (λ count. count ≤ length buf.old) }
        ensures count { IsTrue tells → IfOk result (λ count. count ≡ read_count ((disk self.old).files file) at (length buf.old)) }
        ensures bytes { IsTrue tells → OnOk result (buf.new ≡ read_into ((disk self.old).files file) at buf.old) }
        ensures unchanged { IsTrue tells → Unchanged (disk self.old) (disk self.new) }
        ensures cause { HasCause (disk_faults self.old) (disk_faults self.new) result }
        ensures voice { voice_faults self.new ≡ voice_faults self.old };

    /// Puts the bytes at a place. A gap past the old end reads as zeros. Where it fails, bytes outside its
    /// range are as they were.
    fn write_at(&mut self, file: FileId, at: u32, bytes: &[u8]) -> Result<(), DiskFault>
        requires { at + length bytes.now < 2 ^ 31 }
        ensures done { OnOk result (IsTrue tells → HoldsBytes file (written ((disk self.old).files file) at bytes.now) (disk self.old).files (disk self.new).files) }
        ensures torn { IsTrue tells → InFile file (Torn at (length bytes.now)) (as_read (disk self.old)) (as_read (disk self.new)) }
        ensures crash { IsTrue tells → Passes (InFile file (Torn at (length bytes.now))) (InFile file (Torn at (length bytes.now))) (disk self.old) (disk self.new) }
        ensures wrote { IsTrue tells → (disk self.new).wrote ≡ min ((disk self.old).wrote + length bytes.now) (2 ^ 64 - 1) }
        ensures cause { HasCause (disk_faults self.old) (disk_faults self.new) result }
        ensures voice { voice_faults self.new ≡ voice_faults self.old };

    /// Shortens a file that is longer than `len` bytes to that length, and leaves any other as it is.
    fn cut(&mut self, file: FileId, len: u32) -> Result<(), DiskFault>
        ensures done { OnOk result (IsTrue tells → HoldsBytes file (take len ((disk self.old).files file)) (disk self.old).files (disk self.new).files) }
        ensures torn { IsTrue tells → InFile file (Cut len) (as_read (disk self.old)) (as_read (disk self.new)) }
        ensures crash { IsTrue tells → Passes (InFile file (Cut len)) (InFile file (Cut len)) (disk self.old) (disk self.new) }
        ensures wrote { IsTrue tells → (disk self.new).wrote ≡ (disk self.old).wrote }
        ensures cause { HasCause (disk_faults self.old) (disk_faults self.new) result }
        ensures voice { voice_faults self.new ≡ voice_faults self.old };

    /// Makes the file durable: after it a crash leaves of this file what a read gives. No read changes.
    fn sync(&mut self, file: FileId) -> Result<(), DiskFault>
        ensures durable { OnOk result (IsTrue tells → (image : Image) → Now (disk self.new) image → image.files file ≡ (disk self.old).files file) }
        ensures same { IsTrue tells → as_read (disk self.new) ≡ as_read (disk self.old) }
        ensures crash { IsTrue tells → Passes Same Same (disk self.old) (disk self.new) }
        ensures wrote { IsTrue tells → (disk self.new).wrote ≡ (disk self.old).wrote }
        ensures cause { HasCause (disk_faults self.old) (disk_faults self.new) result }
        ensures voice { voice_faults self.new ≡ voice_faults self.old };

    /// Says the bytes. Where it fails, a front of them was said.
    fn say(&mut self, bytes: &[u8]) -> Result<(), VoiceFault>
        ensures done { OnOk result (IsTrue tells → (disk self.new).said ≡ (disk self.old).said ++ bytes.now) }
        ensures partly { IsTrue tells → Says bytes.now (as_read (disk self.old)) (as_read (disk self.new)) }
        ensures crash { IsTrue tells → Passes (Says bytes.now) (Says bytes.now) (disk self.old) (disk self.new) }
        ensures wrote { IsTrue tells → (disk self.new).wrote ≡ (disk self.old).wrote }
        ensures cause { HasCause (voice_faults self.old) (voice_faults self.new) result }
        ensures disk { disk_faults self.new ≡ disk_faults self.old };
}
