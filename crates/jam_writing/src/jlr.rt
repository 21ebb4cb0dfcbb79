ghost use Rattle.std.specs.Prelude.{◌≡◌, IfOk};
ghost use Rattle.jam_records.specs.LastReads.{last_text};
ghost use Rattle.jam_layout.specs.Readers.{last_read as record_of, last_reads};

use jam_layout::{Reader, Readers, name_crc};
use jam_records::{Bytes, LastRead, write_last};
use std::alloc::{AllocError, Global};

/// The last-read record of a reader with this pointer.
fn last_read(reader: &Reader, pointer: u32) -> LastRead
    ensures { result ≡ record_of reader.now pointer }
{
    LastRead {
        user_crc: name_crc(reader.name.as_slice()),
        user_id: reader.id,
        last: pointer,
        high: pointer,
    }
}

/// The bytes of the last-read record of a reader with this pointer.
pub fn write_reader(reader: &Reader, pointer: u32) -> [u8; 16]
    ensures { result ≡ last_text (record_of reader.now pointer) }
{
    write_last(&last_read(reader, pointer))
}

/// The bytes of .JLR: the records of readers with these pointers.
///
/// The error comes where there is no memory.
pub fn write_jlr(alloc: Global, readers: &Readers, pointers: &[u32]) -> Result<Bytes, AllocError>
    ensures { IfOk result (λ jlr. jlr ≡ last_reads readers.now pointers.now) }
{
    let mut jlr = Bytes::new(alloc);
    for (place, pointer) in pointers.iter().enumerate() {
        let Some(reader) = readers.get(place) else {
            break;
        };
        jlr.add(&write_reader(reader, *pointer))?;
    }
    Ok(jlr)
}
