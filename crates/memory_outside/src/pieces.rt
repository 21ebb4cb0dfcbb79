ghost use Rattle.std.specs.Prelude.{◌≡◌, length};
ghost use Rattle.door_outside.specs.Disk.{read_count, read_into};

/// Fills the buffer from the byte at a place of a file, and answers how many bytes it gave.
pub(crate) fn read_piece(file: &[u8], at: u32, buf: &mut [u8]) -> usize
    ensures count { result ≡ read_count file.now at (length buf.old) }
    ensures bytes { buf.new ≡ read_into file.now at buf.old }
{
    let at = at as usize;
    if at >= file.len() {
        return 0;
    }
    let count = buf.len().min(file.len() - at);
    buf[..count].copy_from_slice(&file[at..at + count]);
    count
}
